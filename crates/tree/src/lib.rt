// The flat tree in a lent array: records of four words, tag, value, line and size.
#![tactic(auto)]

ghost use Rattle.std.specs.Prelude.{◌≡◌, ◌+◌, ◌*◌, ◌^◌, ◌≤◌, ◌<◌, length, set, replicate};
ghost use Rattle.std.proofs.lemmas.List.Edits.{sets};
ghost use Rattle.tree.specs.Forest.{words};

pub mod tags;

pub use tags::Tag;

// The four words of a tree record.
#[derive(Clone, Copy, PartialEq, Eq, Debug)]
pub struct Record {
    pub tag: u64,
    pub value: u64,
    pub line: u64,
    pub size: u64,
}

// Stores v, where there is room.
fn store(nodes: &mut [u64], at: usize, v: u64)
    ensures { nodes.new ≡ set nodes.old at v }
{
    if at < nodes.len() {
        nodes[at] = v;
    }
}

// Writes as much of the record at this word as fits.
fn put_part(nodes: &mut [u64], at: usize, node: Record)
    requires { (at ≤ length nodes.old) × (at + 3 < 2 ^ 64) }
    ensures { nodes.new ≡ sets nodes.old at (words node.tag node.value node.line node.size) }
{
    store(nodes, at, node.tag);
    store(nodes, at + 1, node.value);
    store(nodes, at + 2, node.line);
    store(nodes, at + 3, node.size);
}

// Writes record `index`, as far as it fits. A parent is written after its children, when its value and its size are known.
pub fn put(nodes: &mut [u64], index: usize, node: Record)
    ensures { nodes.new ≡ sets nodes.old (index * 4) (words node.tag node.value node.line node.size) }
{
    let whole = nodes.len() / 4;
    if index < whole {
        let at = index * 4;
        nodes[at] = node.tag;
        nodes[at + 1] = node.value;
        nodes[at + 2] = node.line;
        nodes[at + 3] = node.size;
    } else if index == whole {
        put_part(nodes, index * 4, node);
    }
}

// Sets every word to 0.
pub fn clear(nodes: &mut [u64])
    ensures { nodes.new ≡ replicate (length nodes.old) 0 }
{
    nodes.fill(0);
}
