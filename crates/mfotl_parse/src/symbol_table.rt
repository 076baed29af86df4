//! The variables that were met.
ghost use Rattle.std.specs.Prelude.{◌≡◌, IfOk, OnOk, length, slice_get, option_map, Some, None, position};
ghost use Rattle.std.specs.Prelude.{map, is_some, ◌++◌, ◌∷◌, []};
ghost use Rattle.std.specs.Str.{bytes_eq};
ghost use Rattle.indexmap.specs.IndexMap.{get_by};
ghost use Rattle.mfotl_parse.specs.SymbolTable as sorting;
ghost use Rattle.mfotl_parse.specs.Limits.{max_free};
ghost use Rattle.mfotl_parse.specs.States.{no_names};
ghost use Rattle.mfotl_parse.specs.Views.{known_of, names_met, stack_of};

use crate::frame::Frame;
use crate::limits::MAX_FREE;
use crate::stack::binder_of;
use crate::term::{Pair, Variable};
use indexmap::IndexMap;
use mfotl_model::{Name, Sort, Var, Vars};
use std::alloc::{AllocError, Global};

#[derive(Drop)]
pub struct SymbolTable {
    /// The free variables, each with the offset of its first occurrence.
    pub free: IndexMap<Vec<u8>, u64>,
    pub free_sorts: Vec<Option<Sort>>,
    pub bound_sorts: Vec<Option<Sort>>,
    /// The first occurrence or constant of another sort than is due.
    pub clash: Option<u64>,
    /// The comparisons of two variables.
    pub pairs: Vec<Pair>,
}

/// Which of the free variables the name is.
fn place_in(free: &IndexMap<Vec<u8>, u64>, name: &[u8]) -> Option<usize>
    ensures place { result
        ≡ position (λ known. bytes_eq name.now known.0) (map known_of free.now.entries) }
    ensures found { is_some result
        ≡ is_some (get_by (λ key. bytes_eq name.now key.items) free.now) }
{
    free.get_index_of(name)
}

fn add_free(
    alloc: Global,
    free: &mut IndexMap<Vec<u8>, u64>,
    name: &[u8],
    at: u64,
) -> Result<(), AllocError>
    requires { get_by (λ key. bytes_eq name.now key.items) free.old ≡ None }
    ensures { OnOk result (map known_of free.new.entries
        ≡ map known_of free.old.entries ++ (name.now, at) ∷ []) }
{
    let key = Vec::from_slice(alloc, name)?;
    free.insert(key, at)?;
    Ok(())
}

impl SymbolTable {
    pub fn new(alloc: Global) -> Self
        ensures { names_met result ≡ no_names }
    {
        SymbolTable {
            free: IndexMap::new(alloc),
            free_sorts: Vec::new(alloc),
            bound_sorts: Vec::new(alloc),
            clash: None,
            pairs: Vec::new(alloc),
        }
    }

    fn meet_free(&mut self, alloc: Global, name: &[u8], at: u64) -> Result<Variable, AllocError>
        ensures variable { IfOk result (λ variable. variable
            ≡ sorting.free_or_new (sorting.free_place name.now (names_met self.old)) (names_met self.old)) }
        ensures noted { OnOk result (names_met self.new
            ≡ sorting.with_free (sorting.free_place name.now (names_met self.old)) name.now at (names_met self.old)) }
    {
        if let Some(place) = place_in(&self.free, name) {
            let Ok(place) = u32::try_from(place) else {
                return Err(AllocError);
            };
            return Ok(Variable::Free(place));
        }
        let Ok(place) = u32::try_from(self.free.len()) else {
            return Err(AllocError);
        };
        add_free(alloc, &mut self.free, name, at)?;
        self.free_sorts.push(None)?;
        Ok(Variable::Free(place))
    }

    /// The variable that a name at the offset stands for, which may be a new one.
    pub fn meet(
        &mut self,
        alloc: Global,
        name: &[u8],
        at: u64,
        frames: &[Frame],
    ) -> Result<Variable, AllocError>
        ensures variable { IfOk result (λ variable. variable
            ≡ sorting.resolved name.now (stack_of frames.now) (names_met self.old)) }
        ensures noted { OnOk result (names_met self.new
            ≡ sorting.noted name.now at (stack_of frames.now) (names_met self.old)) }
    {
        match binder_of(name, frames) {
            Some(variable) => Ok(Variable::Bound(variable)),
            None => Ok(self.meet_free(alloc, name, at)?),
        }
    }

    /// One more bound variable.
    pub fn bind(&mut self, sort: Option<Sort>) -> Result<u32, AllocError>
        ensures place { IfOk result (λ place. place ≡ length self.old.bound_sorts.items) }
        ensures bound { OnOk result (names_met self.new
            ≡ sorting.bound_more sort (names_met self.old)) }
    {
        let Ok(place) = u32::try_from(self.bound_sorts.len()) else {
            return Err(AllocError);
        };
        self.bound_sorts.push(sort)?;
        Ok(place)
    }

    /// Where the ninth free variable first occurs.
    pub fn ninth_free(&self) -> Option<u64>
        ensures { result
            ≡ option_map (λ known. known.1) (slice_get (names_met self.now).free max_free) }
    {
        match self.free.get_index(MAX_FREE as usize) {
            Some((_, at)) => Some(*at),
            None => None,
        }
    }

    fn var(&self, alloc: Global, place: usize) -> Result<Var, AllocError>
        ensures { IfOk result (λ var. sorting.var_of (slice_get (names_met self.now).free place)
            (slice_get self.now.free_sorts.items place) ≡ Some var) }
    {
        let Some((name, _)) = self.free.get_index(place) else {
            return Err(AllocError);
        };
        let sort = match self.free_sorts.get(place) {
            Some(Some(sort)) => *sort,
            Some(None) => Sort::Int,
            None => Sort::Int,
        };
        let name = Name::from_slice(alloc, name)?;
        Ok(Var { name, sort })
    }

    /// The free variables with their sorts.
    pub fn vars(&self, alloc: Global) -> Result<Vars, AllocError>
        ensures { IfOk result (λ vars. vars
            ≡ sorting.vars_of (names_met self.now).free (names_met self.now).free_sorts) }
    {
        let mut vars = Vec::new(alloc);
        for place in 0..self.free.len() {
            let var = self.var(alloc, place)?;
            vars.push(var)?;
        }
        Ok(Vars::new(vars))
    }
}
