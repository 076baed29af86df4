//! The data of nodes, united.
ghost use Rattle.std.specs.Prelude.{IfOk};
ghost use Rattle.eval_bool.specs.BoolData.{kept_tables};
ghost use Rattle.monitor_state.specs.StateUnions.{NodeUnion, NodesUnion};
ghost use Rattle.monitor_state.specs.declared.state.NodeData.TheVariants.{Join, Or, Previous, Next};
ghost use Rattle.monitor_state.specs.declared.state.NodeData.TheVariants.{Window, Filter};
ghost use Rattle.state_merge.specs.Fits.{AllAlike, ListsFit, NodesAlike, TablesFit, WindowsFit};

use crate::tables::{united_lists, united_operands, united_tables};
use crate::windows::united_window;
use eval_bool::{JoinData, OrData};
use eval_since::PrevData;
use eval_until::NextData;
use monitor_state::{NodeData, WindowData};
use relations::Table;
use std::alloc::{AllocError, Global};

fn united_join(alloc: Global, first: JoinData, second: JoinData) -> Result<NodeData, AllocError>
    requires { ListsFit (kept_tables first) (kept_tables second) }
    ensures { IfOk result (NodeUnion (Join first) (Join second)) }
{
    let tables = united_lists(alloc, first.tables, second.tables)?;
    Ok(NodeData::Join(JoinData {
        pulled: first.pulled,
        tables,
    }))
}

fn united_or(alloc: Global, first: OrData, second: OrData) -> Result<NodeData, AllocError>
    requires lefts { TablesFit first.lefts.items second.lefts.items }
    requires rights { TablesFit first.rights.items second.rights.items }
    ensures { IfOk result (NodeUnion (Or first) (Or second)) }
{
    let lefts = (first.lefts, second.lefts);
    let rights = (first.rights, second.rights);
    let (lefts, rights) = united_operands(alloc, lefts, rights)?;
    Ok(NodeData::Or(OrData {
        pulled: first.pulled,
        lefts,
        rights,
    }))
}

fn united_previous(alloc: Global, first: PrevData, second: PrevData) -> Result<NodeData, AllocError>
    requires { TablesFit first.tables.items second.tables.items }
    ensures { IfOk result (NodeUnion (Previous first) (Previous second)) }
{
    let tables = united_tables(alloc, first.tables, second.tables)?;
    Ok(NodeData::Previous(PrevData {
        pulled: first.pulled,
        tables,
    }))
}

fn united_next(alloc: Global, first: NextData, second: NextData) -> Result<NodeData, AllocError>
    requires { TablesFit first.tables.items second.tables.items }
    ensures { IfOk result (NodeUnion (Next first) (Next second)) }
{
    let tables = united_tables(alloc, first.tables, second.tables)?;
    Ok(NodeData::Next(NextData {
        pulled: first.pulled,
        started: first.started,
        tables,
    }))
}

fn united_behind(
    alloc: Global,
    first: WindowData,
    second: WindowData,
) -> Result<NodeData, AllocError>
    requires { WindowsFit first second }
    ensures { IfOk result (NodeUnion (Window first) (Window second)) }
{
    let window = united_window(alloc, first, second)?;
    Ok(NodeData::Window(window))
}

fn united_filter(
    alloc: Global,
    tables: (Vec<Table>, Vec<Table>),
    first: WindowData,
    second: WindowData,
) -> Result<NodeData, AllocError>
    requires tables { TablesFit tables.0.items tables.1.items }
    requires windows { WindowsFit first second }
    ensures { IfOk result (NodeUnion (Filter tables.0 first) (Filter tables.1 second)) }
{
    let tables = united_tables(alloc, tables.0, tables.1)?;
    let window = united_window(alloc, first, second)?;
    Ok(NodeData::Filter(tables, window))
}

fn united_node(alloc: Global, first: NodeData, second: NodeData) -> Result<NodeData, AllocError>
    requires { NodesAlike first second }
    ensures { IfOk result (NodeUnion first second) }
{
    match (first, second) {
        (NodeData::Bare, NodeData::Bare) => Ok(NodeData::Bare),
        (NodeData::Join(first), NodeData::Join(second)) => united_join(alloc, first, second),
        (NodeData::Or(first), NodeData::Or(second)) => united_or(alloc, first, second),
        (NodeData::Previous(first), NodeData::Previous(second)) => {
            united_previous(alloc, first, second)
        }
        (NodeData::Next(first), NodeData::Next(second)) => united_next(alloc, first, second),
        (NodeData::Window(first), NodeData::Window(second)) => united_behind(alloc, first, second),
        (NodeData::Filter(tables, first), NodeData::Filter(others, second)) => {
            united_filter(alloc, (tables, others), first, second)
        }
        _ => unreachable!(),
    }
}

/// What both keep, node by node.
pub fn united_nodes(
    alloc: Global,
    first: Vec<NodeData>,
    second: Vec<NodeData>,
) -> Result<Vec<NodeData>, AllocError>
    requires { AllAlike first.items second.items }
    ensures { IfOk result (λ nodes. NodesUnion first.items second.items nodes.items) }
{
    let mut nodes = Vec::with_capacity(alloc, first.len())?;
    let mut others = second.into_iter();
    for node in first {
        let Some(other) = others.next() else {
            unreachable!();
        };
        nodes.push(united_node(alloc, node, other)?)?;
    }
    Ok(nodes)
}
