// Sets of nodes as 32-bit numbers, in which node v adds 2 to the power v: membership, adding a node, the least node.
#![tactic(auto)]

ghost use Rattle.std.specs.Prelude.{◌≡◌, ◌-◌, ◌^◌, ◌<◌};
ghost use Rattle.events.specs.Sets.{has};
ghost use Rattle.nodes.specs.NodeSets.{with_node, least_node};

// Whether the node is in the set.
pub fn has_node(set: u32, node: usize) -> bool
    requires { node < 32 }
    ensures { result ≡ has set node }
{
    (set >> node) % 2 == 1
}

// The set with the node added, there already or not.
pub fn with_node(set: u32, node: usize) -> u32
    requires { node < 32 }
    ensures { result ≡ with_node set node }
{
    set | (1u32 << node)
}

// The least node of the set.
pub fn least_node(set: u32) -> usize
    ensures { result ≡ least_node set }
{
    u32::trailing_zeros(set) as usize
}

// The set without its least node.
pub fn without_least(set: u32) -> u32
    requires { 0 < set }
    ensures { result ≡ set - 2 ^ least_node set }
{
    set & (set - 1)
}
