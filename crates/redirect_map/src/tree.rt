// A tree of masks in one list. Node 1 is its root, nodes 2 n and 2 n + 1 stand below node n, and the second half
// of the list are the leaves. Node 0 stands above the root.
ghost use Rattle.std.specs.Prelude.{◌≡◌, ◌<◌, ◌≤◌, ◌*◌, ◌/◌, ℕ, length, drop, slice_index, slice_set, bit_and};
ghost use Rattle.redirect_map.specs.Marks.{IsSummed, IsSummedBut, AreApart};

// Makes the nodes above a leaf anew, up to the first one that stays as it was.
fn raise(nodes: &mut Vec<u128>, leaf: usize)
    requires even { length nodes.old.items ≡ 2 * (length nodes.old.items / 2) }
    requires within { leaf < length nodes.old.items }
    requires summed { IsSummedBut leaf nodes.old.items }
    ensures summed { IsSummed nodes.new.items }
    ensures same { length nodes.new.items ≡ length nodes.old.items }
    ensures leaves { drop (length nodes.old.items / 2) nodes.new.items
        ≡ drop (length nodes.old.items / 2) nodes.old.items }
{
    let mut node = leaf;
    while node > 0 {
        node /= 2;
        let both = nodes[2 * node] | nodes[2 * node + 1];
        if nodes[node] == both {
            return;
        }
        nodes[node] = both;
    }
}

// Gives the leaf of this place another mask.
pub fn set_leaf(nodes: &mut Vec<u128>, place: usize, mask: u128)
    requires even { length nodes.old.items ≡ 2 * (length nodes.old.items / 2) }
    requires within { place < length nodes.old.items / 2 }
    requires summed { IsSummed nodes.old.items }
    ensures summed { IsSummed nodes.new.items }
    ensures same { length nodes.new.items ≡ length nodes.old.items }
    ensures leaves { drop (length nodes.old.items / 2) nodes.new.items
        ≡ slice_set (drop (length nodes.old.items / 2) nodes.old.items) place mask }
{
    let leaf = nodes.len() / 2 + place;
    nodes[leaf] = mask;
    raise(nodes, leaf);
}

// The first node from a leaf on that has a bit of `wanted`, or the length of the list.
//
// The node `leaf >> height` stands above the leaf. Where it has no such bit, no leaf below it has, and the
// search goes on behind these and a level higher; where it has one, a level lower. It begins above the root, so
// that one look tells that there is none.
pub fn first_leaf(nodes: &[u128], from: usize, wanted: u128) -> usize
    requires { IsSummed nodes.now }
    ensures from { from ≤ length nodes.now → from ≤ result }
    ensures end { result ≤ length nodes.now }
    ensures found { result < length nodes.now → bit_and (slice_index nodes.now result) wanted ≡ 0
        → ⊥ }
    ensures apart { (n : ℕ) → from ≤ n → n < result → AreApart (slice_index nodes.now n) wanted }
{
    let mut leaf = from;
    let mut height = (usize::BITS - nodes.len().leading_zeros()).min(60);
    while leaf < nodes.len() {
        if nodes[leaf >> height] & wanted == 0 {
            leaf = ((leaf >> height) + 1) << height;
            height = (height + 1).min(60);
        } else if height == 0 {
            return leaf;
        } else {
            height -= 1;
        }
    }
    nodes.len()
}
