//! Nodes cut for workers, one by one: each worker gets the rows in its region.
ghost use Rattle.std.specs.Prelude.{IfOk};
ghost use Rattle.monitor_state.specs.StateCuts.{NodesCut};
ghost use Rattle.monitor_state.specs.declared.state.NodeData.TheVariants.{Bare, Join, Or, Previous, Next};
ghost use Rattle.monitor_state.specs.declared.state.NodeData.TheVariants.{Window, Filter};
ghost use Rattle.state_split.specs.Fits.{CutNodes, NodesFit};
ghost use Rattle.state_split.specs.Shares.{OneEach};

use crate::shares::{empty_shares, lengthen, paired};
use crate::sorter::Sorter;
use crate::tables::{cut_lists, cut_operands, cut_tables};
use crate::windows::cut_window;
use eval_bool::{JoinData, OrData};
use eval_since::PrevData;
use eval_until::NextData;
use monitor_state::{NodeData, WindowData};
use relations::Table;
use std::alloc::{AllocError, Global};

fn bare<S: Sorter>(alloc: Global, sorter: &S) -> Result<Vec<NodeData>, AllocError>
    ensures { IfOk result (λ cuts.
        CutNodes (S.count sorter.now) (S.region sorter.now) Bare cuts.items) }
{
    let workers = sorter.workers();
    let mut cuts = Vec::with_capacity(alloc, workers as usize)?;
    for _ in 0..workers {
        cuts.push(NodeData::Bare)?;
    }
    Ok(cuts)
}

fn cut_join<S: Sorter>(
    alloc: Global,
    sorter: &S,
    join: JoinData,
) -> Result<Vec<NodeData>, AllocError>
    requires { S.tells sorter.now }
    ensures { IfOk result (λ cuts.
        CutNodes (S.count sorter.now) (S.region sorter.now) (Join join) cuts.items) }
{
    let pulled = join.pulled;
    let lists = cut_lists(alloc, sorter, join.tables)?;
    lists
        .into_iter()
        .map(|tables| NodeData::Join(JoinData { pulled, tables }))
        .collect(alloc)
}

fn cut_or<S: Sorter>(alloc: Global, sorter: &S, or: OrData) -> Result<Vec<NodeData>, AllocError>
    requires { S.tells sorter.now }
    ensures { IfOk result (λ cuts.
        CutNodes (S.count sorter.now) (S.region sorter.now) (Or or) cuts.items) }
{
    let pulled = or.pulled;
    let operands = cut_operands(alloc, sorter, or.lefts, or.rights)?;
    operands
        .into_iter()
        .map(|(lefts, rights)| {
            NodeData::Or(OrData {
                pulled,
                lefts,
                rights,
            })
        })
        .collect(alloc)
}

fn cut_previous<S: Sorter>(
    alloc: Global,
    sorter: &S,
    previous: PrevData,
) -> Result<Vec<NodeData>, AllocError>
    requires { S.tells sorter.now }
    ensures { IfOk result (λ cuts.
        CutNodes (S.count sorter.now) (S.region sorter.now) (Previous previous) cuts.items) }
{
    let pulled = previous.pulled;
    let lists = cut_tables(alloc, sorter, previous.tables)?;
    lists
        .into_iter()
        .map(|tables| NodeData::Previous(PrevData { pulled, tables }))
        .collect(alloc)
}

fn cut_next<S: Sorter>(
    alloc: Global,
    sorter: &S,
    next: NextData,
) -> Result<Vec<NodeData>, AllocError>
    requires { S.tells sorter.now }
    ensures { IfOk result (λ cuts.
        CutNodes (S.count sorter.now) (S.region sorter.now) (Next next) cuts.items) }
{
    let pulled = next.pulled;
    let started = next.started;
    let lists = cut_tables(alloc, sorter, next.tables)?;
    lists
        .into_iter()
        .map(|tables| {
            NodeData::Next(NextData {
                pulled,
                started,
                tables,
            })
        })
        .collect(alloc)
}

fn cut_behind<S: Sorter>(
    alloc: Global,
    sorter: &S,
    window: WindowData,
) -> Result<Vec<NodeData>, AllocError>
    requires { S.tells sorter.now }
    ensures { IfOk result (λ cuts.
        CutNodes (S.count sorter.now) (S.region sorter.now) (Window window) cuts.items) }
{
    let windows = cut_window(alloc, sorter, window)?;
    windows
        .into_iter()
        .map(|window| NodeData::Window(window))
        .collect(alloc)
}

fn cut_filter<S: Sorter>(
    alloc: Global,
    sorter: &S,
    tables: Vec<Table>,
    window: WindowData,
) -> Result<Vec<NodeData>, AllocError>
    requires { S.tells sorter.now }
    ensures { IfOk result (λ cuts.
        CutNodes (S.count sorter.now) (S.region sorter.now) (Filter tables window) cuts.items) }
{
    let lists = cut_tables(alloc, sorter, tables)?;
    let windows = cut_window(alloc, sorter, window)?;
    let pairs = paired(alloc, lists, windows)?;
    pairs
        .into_iter()
        .map(|(tables, window)| NodeData::Filter(tables, window))
        .collect(alloc)
}

fn cut_node<S: Sorter>(
    alloc: Global,
    sorter: &S,
    node: NodeData,
) -> Result<Vec<NodeData>, AllocError>
    requires { S.tells sorter.now }
    ensures { IfOk result (λ cuts. CutNodes (S.count sorter.now) (S.region sorter.now) node cuts.items) }
{
    match node {
        NodeData::Bare => bare(alloc, sorter),
        NodeData::Join(join) => cut_join(alloc, sorter, join),
        NodeData::Or(or) => cut_or(alloc, sorter, or),
        NodeData::Previous(previous) => cut_previous(alloc, sorter, previous),
        NodeData::Next(next) => cut_next(alloc, sorter, next),
        NodeData::Window(window) => cut_behind(alloc, sorter, window),
        NodeData::Filter(tables, window) => cut_filter(alloc, sorter, tables, window),
    }
}

/// The nodes for each worker, with the rows in its region alone.
pub(crate) fn cut_nodes<S: Sorter>(
    alloc: Global,
    sorter: &S,
    nodes: Vec<NodeData>,
) -> Result<Vec<Vec<NodeData>>, AllocError>
    requires { S.tells sorter.now }
    ensures { IfOk result (λ cuts. OneEach (S.count sorter.now)
        (λ k cut. NodesFit nodes.items → NodesCut (S.region sorter.now k) nodes.items cut.items) cuts.items) }
{
    let mut cuts = empty_shares(alloc, sorter.workers())?;
    for node in nodes {
        let added = cut_node(alloc, sorter, node)?;
        lengthen(&mut cuts, added)?;
    }
    Ok(cuts)
}
