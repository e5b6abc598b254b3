//! What stands at a path of a tree, and where an id stands, after each change of a tree.
ghost use Rattle.std.specs.Prelude.{List, ℕ, Some, None, ◌≡◌, ◌≢◌, ◌↔◌, true, if◌then◌else◌, ◌++◌};
ghost use Rattle.std.specs.Option.{option_map};
ghost use Rattle.std.specs.FinMap.Entries.{put, is_sorted};
ghost use Rattle.hs_types.specs.Names.{Names};
ghost use Rattle.hs_types.specs.declared.ids.InodeId.{InodeId};
ghost use Rattle.hs_plain.specs.declared.state.Node.{Node};
ghost use Rattle.hs_plain.specs.Tree.{Tree, path_cmp, node_at, same_path, same_inode, place_of, is_under, subtree};
ghost use Rattle.hs_plain.specs.Change.{restamp, stamped, remode, moded, without, repath, moved};
ghost use Rattle.hs_plain.specs.Valid.{has_each_once};
ghost use Rattle.hs_plain.specs.inside.Places.{IsOutside, IsFree, IsOnlyAt, unless_place, stamped_node, moded_node};

/// A node put into a tree stands at its path, and all else as before.
pub fn node_after_put()
    ensures here { (tree : Tree (List ℕ)) (path : Names) (node : Node (List ℕ)) → node_at (put path_cmp path node tree) path ≡ Some node }
    ensures elsewhere { (tree : Tree (List ℕ)) (path : Names) (node : Node (List ℕ)) (other : Names) → other ≢ path → node_at (put path_cmp path node tree) other ≡ node_at tree other }
{}

/// Where a subtree is cut off nothing stands, and all else as before.
pub fn node_after_cut()
    ensures below { (tree : Tree (List ℕ)) (path rest : Names) → node_at (without tree path) (path ++ rest) ≡ None }
    ensures elsewhere { (tree : Tree (List ℕ)) (path other : Names) → IsOutside path other → node_at (without tree path) other ≡ node_at tree other }
{}

/// A subtree that moves to a free place stands there as it stood, and all else as if it were cut off.
pub fn node_after_move()
    ensures below { (tree : Tree (List ℕ)) (old new rest : Names) → is_sorted path_cmp tree ≡ true → IsFree tree new → node_at (moved tree old new) (new ++ rest) ≡ node_at tree (old ++ rest) }
    ensures elsewhere { (tree : Tree (List ℕ)) (old new other : Names) → is_sorted path_cmp tree ≡ true → IsFree tree new → IsOutside new other → node_at (moved tree old new) other ≡ node_at (without tree old) other }
{}

/// A copied subtree has at each path what the tree has there below the directory.
pub fn node_in_subtree()
    ensures { (tree : Tree (List ℕ)) (path below : Names) → node_at (subtree tree path) below ≡ node_at tree (path ++ below) }
{}

/// A stamp changes the node at its path alone.
pub fn node_after_stamp()
    ensures here { (tree : Tree (List ℕ)) (path : Names) (tick : ℕ) → node_at (stamped tree path tick) path ≡ option_map (stamped_node tick) (node_at tree path) }
    ensures elsewhere { (tree : Tree (List ℕ)) (path : Names) (tick : ℕ) (other : Names) → other ≢ path → node_at (stamped tree path tick) other ≡ node_at tree other }
{}

/// A mode changes the node at its path alone.
pub fn node_after_mode()
    ensures here { (tree : Tree (List ℕ)) (path : Names) (mode tick : ℕ) → node_at (moded tree path mode tick) path ≡ option_map (moded_node mode tick) (node_at tree path) }
    ensures elsewhere { (tree : Tree (List ℕ)) (path : Names) (mode tick : ℕ) (other : Names) → other ≢ path → node_at (moded tree path mode tick) other ≡ node_at tree other }
{}

/// In a tree in order where each id stands once, an id's place is where its node stands.
pub fn place_of_id()
    ensures { (tree : Tree (List ℕ)) (id : InodeId) (path : Names) (node : Node (List ℕ)) → is_sorted path_cmp tree ≡ true → has_each_once tree ≡ true → (place_of tree id ≡ Some (path, node)) ↔ ((node_at tree path ≡ Some node) × (node.id ≡ id)) }
{}

/// The place of each id after a node is put in that stands nowhere else.
pub fn place_after_put()
    ensures { (tree : Tree (List ℕ)) (path : Names) (node : Node (List ℕ)) (id : InodeId) → is_sorted path_cmp tree ≡ true → has_each_once tree ≡ true → IsOnlyAt tree path node → place_of (put path_cmp path node tree) id ≡ (if same_inode node.id id then Some (path, node) else unless_place (λ place. same_path path place.0) (place_of tree id)) }
{}

/// The place of each id after a subtree is cut off.
pub fn place_after_cut()
    ensures { (tree : Tree (List ℕ)) (path : Names) (id : InodeId) → is_sorted path_cmp tree ≡ true → has_each_once tree ≡ true → place_of (without tree path) id ≡ unless_place (is_under path) (place_of tree id) }
{}

/// The place of each id after a subtree moves to a free place.
pub fn place_after_move()
    ensures { (tree : Tree (List ℕ)) (old new : Names) (id : InodeId) → is_sorted path_cmp tree ≡ true → has_each_once tree ≡ true → IsFree tree new → place_of (moved tree old new) id ≡ option_map (repath old new) (place_of tree id) }
{}

/// The place of each id after a stamp.
pub fn place_after_stamp()
    ensures { (tree : Tree (List ℕ)) (path : Names) (tick : ℕ) (id : InodeId) → place_of (stamped tree path tick) id ≡ option_map (restamp path tick) (place_of tree id) }
{}

/// The place of each id after a mode is set.
pub fn place_after_mode()
    ensures { (tree : Tree (List ℕ)) (path : Names) (mode tick : ℕ) (id : InodeId) → place_of (moded tree path mode tick) id ≡ option_map (remode path mode tick) (place_of tree id) }
{}
