//! A small tree, split and closed by hand.
use crate::{Leaf, SearchTree, Weighed};
use coord_model::{NoMemory, Node, Weights};
use std::alloc::Global;

/// A value that tells its leaf by its lambda.
#[derive(Drop)]
struct Found {
    weights: Weights,
}

impl Weighed for Found {
    ghost weights = { λ s. s.weights };

    fn into_weights(self) -> Weights {
        self.weights
    }
}

// Node 0 of bound 5 is split over 1 and 2, both of bound 6. Node 1 comes first, since it was made first, and is split over
// 3 of bound 9 and 4 of bound 6. Then 2 comes before 4, and 4 before 3.
#[test]
fn the_least_bound_comes_first_and_then_the_least_number(rt: HostRuntime) -> Result<(), NoMemory> {
    let alloc = rt.alloc();
    let mut tree = SearchTree::new(alloc, 5, value(alloc, 10))?;
    assert!(rt; is_first(&tree, 5, 0, 10));
    split(
        &mut tree,
        (3, 7),
        (6, value(alloc, 11)),
        (6, value(alloc, 12)),
    )?;
    assert!(rt; is_first(&tree, 6, 1, 11));
    split(
        &mut tree,
        (1, 0),
        (9, value(alloc, 13)),
        (6, value(alloc, 14)),
    )?;
    assert!(rt; is_first(&tree, 6, 2, 12));
    close(&mut tree, Leaf::Hair { row: 8 });
    assert!(rt; is_first(&tree, 6, 4, 14));
    close(&mut tree, Leaf::Empty);
    assert!(rt; is_first(&tree, 9, 3, 13));
    assert!(rt; tree.nodes() == 5);
    assert!(rt; is_expected(&tree.into_tree(alloc)?));
    Ok(())
}

#[test]
fn a_tree_with_all_its_leaves_closed_has_no_lead(rt: HostRuntime) -> Result<(), NoMemory> {
    let alloc = rt.alloc();
    let mut tree = SearchTree::new(alloc, 5, value(alloc, 10))?;
    close(&mut tree, Leaf::Empty);
    assert!(rt; tree.lead() == None);
    assert!(rt; tree.first().is_none());
    assert!(rt; matches!(tree.into_tree(alloc)?, Node::Empty));
    Ok(())
}

fn value(alloc: Global, lambda: u32) -> Found {
    Found {
        weights: Weights {
            lambda,
            rows: Vec::new(alloc),
        },
    }
}

fn is_first(tree: &SearchTree<Found>, bound: u64, number: u32, lambda: u32) -> bool {
    match tree.first() {
        Some((at, found)) => {
            tree.lead() == Some(bound) && at == number && found.weights.lambda == lambda
        }
        None => false,
    }
}

fn split(
    tree: &mut SearchTree<Found>,
    cut: (u16, u16),
    low: (u64, Found),
    high: (u64, Found),
) -> Result<(), NoMemory> {
    let Some(_) = tree.lead() else {
        return Err(NoMemory);
    };
    if tree.nodes() > 399_999 {
        return Err(NoMemory);
    }
    tree.split(cut.0, cut.1, low, high)
}

fn close(tree: &mut SearchTree<Found>, leaf: Leaf) {
    if let Some(_) = tree.lead() {
        tree.close(leaf);
    }
}

/// Node 0 over nodes 1 and 2, and node 1 over nodes 3 and 4.
fn is_expected(tree: &Node) -> bool {
    match tree {
        Node::Split {
            relay: 3,
            at: 7,
            low,
            high,
        } => is_expected_half(low) && matches!(**high, Node::Hair { row: 8 }),
        _ => false,
    }
}

fn is_expected_half(tree: &Node) -> bool {
    match tree {
        Node::Split {
            relay: 1,
            at: 0,
            low,
            high,
        } => is_open(low, 13) && matches!(**high, Node::Empty),
        _ => false,
    }
}

fn is_open(tree: &Node, lambda: u32) -> bool {
    match tree {
        Node::OpenLeaf(weights) => weights.lambda == lambda,
        _ => false,
    }
}
