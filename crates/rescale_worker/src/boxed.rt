//! What is large and comes rarely stands in a box, so that what is handed over is small. A contract sees what is in it.
ghost use Rattle.std.specs.Prelude.{◌≡◌, IfOk};

use monitor_state::Piece;
use slice_strategy::Strategy;
use std::alloc::{AllocError, Global};
use std::marker::Model;
use std::sync::Arc;

/// A strategy in a box, which is shared by all that it is handed to.
#[derive(Drop)]
pub struct BoxedStrategy {
    inner: Arc<Strategy>,
}

impl Model for BoxedStrategy {
    ghost use Rattle.std.specs.Arc.{arc_value};
    ghost use Rattle.mfotl_model.specs.Strategies.{Strategy as StrategyOf};

    ghost Value = { StrategyOf };

    ghost view = { λ boxed. arc_value boxed.inner };
}

impl BoxedStrategy {
    /// A copy of the strategy.
    pub fn copied(alloc: Global, strategy: &Strategy) -> Result<Self, AllocError>
        ensures same { IfOk result (λ boxed. boxed ≡ strategy.now) }
    {
        let inner = Arc::new(alloc, strategy.copy(alloc)?)?;
        Ok(BoxedStrategy { inner })
    }

    /// The same strategy once more, which takes no memory.
    pub fn shared(&self) -> Result<Self, AllocError>
        ensures same { IfOk result (λ boxed. boxed ≡ self.now) }
    {
        let inner = Arc::try_clone(&self.inner)?;
        Ok(BoxedStrategy { inner })
    }

    /// The strategy, which stays in its box.
    pub fn get(&self) -> &Strategy
        ensures same { result.now ≡ self.now }
    {
        &self.inner
    }
}

/// A piece in a box.
#[derive(Drop)]
pub struct BoxedPiece {
    inner: Box<Piece>,
}

impl Model for BoxedPiece {
    ghost use Rattle.monitor_state.specs.declared.state.Piece.{Piece as PieceOf};

    ghost Value = { PieceOf };

    ghost view = { λ boxed. boxed.inner.value };
}

impl BoxedPiece {
    /// Puts the piece into a box.
    pub fn new(alloc: Global, piece: Piece) -> Result<Self, AllocError>
        ensures same { IfOk result (λ boxed. boxed ≡ piece) }
    {
        let inner = Box::new(alloc, piece)?;
        Ok(BoxedPiece { inner })
    }

    /// The piece, which stays in its box.
    pub fn get(&self) -> &Piece
        ensures same { result.now ≡ self.now }
    {
        &self.inner
    }

    /// The piece, out of its box.
    pub fn into_inner(self) -> Piece
        ensures same { result ≡ self }
    {
        Box::into_inner(self.inner)
    }
}
