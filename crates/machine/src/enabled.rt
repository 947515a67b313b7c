//! Which items may step, by a tree of counts: the node k counts those of the nodes 2k and 2k+1, the root is the node 1, and
//! the items are the last nodes. So to find the item with so many enabled ones before it, and to change one, takes as many
//! turns as the tree is deep.
use std::alloc::{AllocError, Global};

/// The deepest tree has so many layers.
const LAYERS: u32 = 32;

#[derive(Drop)]
pub struct Enabled {
    leaves: usize,
    counts: Vec<u32>,
}

impl Enabled {
    /// All items are enabled, or none.
    pub fn new(alloc: Global, items: u32, enabled: bool) -> Result<Enabled, AllocError> {
        let mut leaves: usize = 1;
        for _ in 0..LAYERS {
            if leaves < items as usize {
                leaves = leaves.saturating_mul(2);
            }
        }
        let counts = vec![in alloc; 0; leaves.saturating_mul(2)]?;
        let mut tree = Enabled { leaves, counts };
        for item in 0..items {
            tree.put(leaves.saturating_add(item as usize), u32::from(enabled));
        }
        for node in (1..leaves).rev() {
            tree.put(node, tree.both(node));
        }
        Ok(tree)
    }

    fn count_at(&self, node: usize) -> u32 {
        self.counts.get(node).copied().unwrap_or(0)
    }

    fn put(&mut self, node: usize, count: u32) {
        if node < self.counts.len() {
            self.counts[node] = count;
        }
    }

    /// What the two nodes below a node count.
    fn both(&self, node: usize) -> u32 {
        let left = node.saturating_mul(2);
        self.count_at(left)
            .saturating_add(self.count_at(left.saturating_add(1)))
    }

    /// The item is enabled from now on, or is not.
    pub fn set(&mut self, item: u32, enabled: bool) {
        let mut node = self.leaves.saturating_add(item as usize);
        self.put(node, u32::from(enabled));
        for _ in 0..LAYERS {
            node /= 2;
            if node == 0 {
                break;
            }
            self.put(node, self.both(node));
        }
    }

    /// No item is enabled from now on.
    pub fn clear(&mut self) {
        for count in self.counts.iter_mut() {
            *count = 0;
        }
    }

    /// Whether the item is enabled.
    pub fn has(&self, item: u32) -> bool {
        self.count_at(self.leaves.saturating_add(item as usize)) > 0
    }

    /// How many items are enabled.
    pub fn count(&self) -> u32 {
        self.count_at(1)
    }

    /// The enabled item with so many enabled ones before it.
    pub fn nth(&self, before: u32) -> Option<u32> {
        if before >= self.count() {
            return None;
        }
        let mut before = before;
        let mut node: usize = 1;
        for _ in 0..LAYERS {
            if node >= self.leaves {
                break;
            }
            node = node.saturating_mul(2);
            let left = self.count_at(node);
            if before >= left {
                before -= left;
                node = node.saturating_add(1);
            }
        }
        let item = node.saturating_sub(self.leaves);
        Some(item.min(u32::MAX as usize) as u32)
    }
}
