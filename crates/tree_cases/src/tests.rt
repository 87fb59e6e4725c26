//! Trees worked out by hand, each taken whole and node by node. Curve B takes 13.5/(M - 1) seconds at the multiple of
//! pickup M and dial 1.
ghost use Rattle.std.specs.Prelude.{◌≡◌, ◌≤◌, All, IfOk, false, length};
ghost use Rattle.coord_model.specs.Tree.{depth, nodes_of, shape};
ghost use Rattle.coord_model.specs.TreeLimits.{AreLeafWeights, FitLeaves, FitsTree};
ghost use Rattle.margin_rows.specs.Box.{FitsBox};
ghost use Rattle.cert_tree.specs.Judgement.{HasLambda};

use cert_tree::{NodeKind, TreeRefusal, TreeWalk, boxes, ending_of, holds_at};
use coord_model::{Ending, NoMemory, Node, NodeLine, Weight, Weights};
use hand_studies::{Limits, parallel_lines, tied_lines, two_lines, two_pickups};
use margin_rows::{BuildFault, Instance, Ranges};
use std::alloc::Global;
use std::boxed::Box;
use std::process::Abort;

mod deep;
mod limits;
mod shallow;
mod unissued;

/// The rows that weigh 1 in a node.
#[derive(Clone, Copy)]
enum Rows {
    None,
    One(u16),
    Both,
}

/// A node by itself. Lambda is at least 1.
#[derive(Clone, Copy)]
struct Single {
    line: NodeLine,
    rows: Rows,
}

/// What is below a split: a node, and two leaves below it if it is a split itself.
type Half = [Single; 3];

/// A root, and what is below it if it is a split.
#[derive(Clone, Copy)]
struct Tree {
    root: Single,
    low: Half,
    high: Half,
}

/// A bound, the boxes, and the ending.
type Told = (Option<u64>, u32, Option<Ending>);

/// A tree, and what is told of it.
type Row = (Tree, Result<Told, TreeRefusal>);

/// The cost of issued settings, if there are any, and a budget. The gap is 1,000.
#[derive(Clone, Copy)]
struct Issued {
    cost: Option<u64>,
    budget: u32,
}

const GAP: u64 = 1_000;

const NO_LIMITS: Limits = Limits {
    least_ms: 0,
    most_ms: 0,
};

const fn unweighed(line: NodeLine) -> Single {
    Single {
        line,
        rows: Rows::None,
    }
}

const fn weighed(line: NodeLine, rows: Rows) -> Single {
    Single { line, rows }
}

const fn split(relay: u16, at: u16) -> Single {
    unweighed(NodeLine::Split { relay, at })
}

const EMPTY: Single = Single {
    line: NodeLine::Empty,
    rows: Rows::None,
};

const VOID: Single = Single {
    line: NodeLine::Void,
    rows: Rows::None,
};

const PLAIN: Single = Single {
    line: NodeLine::Bound { lambda: 1 },
    rows: Rows::None,
};

const OPEN: Single = Single {
    line: NodeLine::OpenLeaf { lambda: 1 },
    rows: Rows::None,
};

const fn hair(row: u16) -> Single {
    unweighed(NodeLine::Hair { row })
}

const fn one(root: Single) -> Tree {
    cut(root, PLAIN, PLAIN)
}

const fn cut(root: Single, low: Single, high: Single) -> Tree {
    Tree {
        root,
        low: [low, PLAIN, PLAIN],
        high: [high, PLAIN, PLAIN],
    }
}

const fn holds(
    bound: Option<u64>,
    boxes: u32,
    ending: Option<Ending>,
) -> Result<Told, TreeRefusal> {
    Ok((bound, boxes, ending))
}

const fn fails(number: u32, kind: NodeKind) -> Result<Told, TreeRefusal> {
    Err(TreeRefusal::Fault { number, kind })
}

/// Walks the rows.
fn agree(rt: &(impl Abort + AllocGlobal), inst: &Instance, issued: &Issued, rows: &[Row]) {
    for (tree, answer) in rows {
        assert!(rt; whole(rt.alloc(), inst, issued, tree) == *answer);
        assert!(rt; by_nodes(rt.alloc(), inst, issued, tree) == *answer);
    }
}

/// What is told of a tree as a whole.
fn whole(
    alloc: Global,
    inst: &Instance,
    issued: &Issued,
    tree: &Tree,
) -> Result<Told, TreeRefusal> {
    let node = planted(alloc, tree)?;
    let ranges = Ranges::first(alloc, inst)?;
    let bound = holds_at(alloc, inst, &ranges, &node)?;
    let ending = ending_of(&node, bound, issued.cost, GAP, issued.budget);
    Ok((bound, boxes(&node), ending))
}

/// What is told of its nodes, one after the other.
fn by_nodes(
    alloc: Global,
    inst: &Instance,
    issued: &Issued,
    tree: &Tree,
) -> Result<Told, TreeRefusal> {
    let nodes = listed(alloc, tree)?;
    let mut walk = TreeWalk::new(alloc, inst)?;
    match take(alloc, &mut walk, inst, &nodes)? {
        Some(kind) => Err(TreeRefusal::Fault {
            number: walk.nodes().saturating_add(1),
            kind,
        }),
        None => Ok((walk.bound(), walk.boxes(), ended(&walk, issued))),
    }
}

/// How many boxes are due, how many nodes were taken, the boxes, and the bound so far.
type Place = (u32, u32, u32, Option<u64>);

/// Where a walk is after so many nodes of a tree.
fn after(alloc: Global, inst: &Instance, tree: &Tree, count: usize) -> Result<Place, TreeRefusal> {
    let nodes = listed(alloc, tree)?;
    let mut walk = TreeWalk::new(alloc, inst)?;
    match take(alloc, &mut walk, inst, &nodes[..nodes.len().min(count)])? {
        Some(kind) => Err(TreeRefusal::Fault { number: 0, kind }),
        None => Ok((walk.due(), walk.nodes(), walk.boxes(), walk.bound())),
    }
}

/// The ending of a walk if no node is due any more.
fn ended(walk: &TreeWalk, issued: &Issued) -> Option<Ending> {
    if walk.due() == 0 {
        walk.ending(issued.cost, GAP, issued.budget)
    } else {
        None
    }
}

/// Takes the nodes, up to one that is wrong.
fn take(
    alloc: Global,
    walk: &mut TreeWalk,
    inst: &Instance,
    nodes: &[Single],
) -> Result<Option<NodeKind>, NoMemory>
    requires going { walk.old.refused ≡ false }
    requires fits { All (FitsBox inst.now) walk.old.due }
{
    for node in nodes {
        let is_due = walk.due() > 0 && walk.nodes() < 400_001;
        if !is_due {
            break;
        }
        let weights = weights(alloc, node.rows)?;
        if let Err(kind) = walk.node(inst, line(node.line), &weights) {
            return Ok(Some(kind));
        }
    }
    Ok(None)
}

/// The nodes of a tree in pre-order.
fn listed(alloc: Global, tree: &Tree) -> Result<Vec<Single>, NoMemory> {
    let mut nodes = Vec::from_slice(alloc, &[tree.root])?;
    if is_split(tree.root.line) {
        for half in [&tree.low, &tree.high] {
            let count = if is_split(half[0].line) { 3 } else { 1 };
            nodes.extend_from_slice(&half[..count])?;
        }
    }
    Ok(nodes)
}

fn is_split(line: NodeLine) -> bool {
    matches!(line, NodeLine::Split { .. })
}

fn planted(alloc: Global, tree: &Tree) -> Result<Node, NoMemory>
    ensures { IfOk result (λ node. FitsTree (shape node)) }
{
    match tree.root.line {
        NodeLine::Split { relay, at } => Ok(Node::Split {
            relay,
            at,
            low: Box::new(alloc, half(alloc, &tree.low)?)?,
            high: Box::new(alloc, half(alloc, &tree.high)?)?,
        }),
        _ => leaf(alloc, &tree.root),
    }
}

fn half(alloc: Global, half: &Half) -> Result<Node, NoMemory>
    ensures leaves { IfOk result (λ node. FitLeaves (shape node)) }
    ensures depth { IfOk result (λ node. depth (shape node) ≤ 2) }
    ensures nodes { IfOk result (λ node. length (nodes_of (shape node)) ≤ 7) }
{
    match half[0].line {
        NodeLine::Split { relay, at } => Ok(Node::Split {
            relay,
            at,
            low: Box::new(alloc, leaf(alloc, &half[1])?)?,
            high: Box::new(alloc, leaf(alloc, &half[2])?)?,
        }),
        _ => leaf(alloc, &half[0]),
    }
}

/// A leaf. A split in its place stands over two `Empty`.
fn leaf(alloc: Global, single: &Single) -> Result<Node, NoMemory>
    ensures leaves { IfOk result (λ node. FitLeaves (shape node)) }
    ensures depth { IfOk result (λ node. depth (shape node) ≤ 1) }
    ensures nodes { IfOk result (λ node. length (nodes_of (shape node)) ≤ 3) }
{
    let rows = weights(alloc, single.rows)?;
    Ok(match line(single.line) {
        NodeLine::Split { relay, at } => Node::Split {
            relay,
            at,
            low: Box::new(alloc, Node::Empty)?,
            high: Box::new(alloc, Node::Empty)?,
        },
        NodeLine::Empty => Node::Empty,
        NodeLine::Void => Node::Void(rows),
        NodeLine::Bound { lambda } => Node::Bound(Weights { lambda, rows }),
        NodeLine::Hair { row } => Node::Hair { row },
        NodeLine::OpenLeaf { lambda } => Node::OpenLeaf(Weights { lambda, rows }),
    })
}

/// The line, with a lambda that is at least 1.
fn line(line: NodeLine) -> NodeLine
    ensures { HasLambda result }
{
    match line {
        NodeLine::Bound { lambda } => NodeLine::Bound {
            lambda: lambda.max(1),
        },
        NodeLine::OpenLeaf { lambda } => NodeLine::OpenLeaf {
            lambda: lambda.max(1),
        },
        other => other,
    }
}

fn weights(alloc: Global, rows: Rows) -> Result<Vec<Weight>, NoMemory>
    ensures { IfOk result (λ weights. AreLeafWeights weights.items) }
{
    match rows {
        Rows::None => Ok(Vec::new(alloc)),
        Rows::One(row) => Ok(Vec::from_slice(alloc, &[Weight { row, weight: 1 }])?),
        Rows::Both => {
            let both = [Weight { row: 0, weight: 1 }, Weight { row: 1, weight: 1 }];
            Ok(Vec::from_slice(alloc, &both)?)
        }
    }
}
