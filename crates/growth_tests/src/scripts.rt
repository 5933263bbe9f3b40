//! The scripts of the trials, and the tiles that only they edit.

/// Seven layers of nothing but a name, "a" to "g".
pub const LAYERS: &[u8] = b"\
    \x1a\x03\x0a\x01a\x1a\x03\x0a\x01b\x1a\x03\x0a\x01c\x1a\x03\x0a\x01d\
    \x1a\x03\x0a\x01e\x1a\x03\x0a\x01f\x1a\x03\x0a\x01g";

/// A layer of one feature, whose kind is between two ids.
pub const IDS_APART: &[u8] = b"\x1a\x08\x12\x06\x08\x05\x18\x01\x08\x06";

/// The layer of `T0` with a second key "m". The feature has the value for both, and its last tag is a
/// field of its own, which is not packed.
pub const TAGS_APART: &[u8] = b"\
    \x1a\x24\x0a\x01a\x12\x10\x12\x03\x00\x00\x01\x08\x01\x10\x00\x18\x01\x22\x03\x09\x32\x22\
    \x1a\x01k\x1a\x01m\x22\x02\x20\x05\x28\x80\x20\x78\x02";

pub const RENAME_AND_UNDO: &str = "\
rename-layer \"a\" \"roads\"
undo
";

pub const LISTINGS: &str = "\
list
list #0
list \"a\" @1
";

pub const IDS_LISTED: &str = "\
set-id #0 0 9
list
list #0
list \"a\" @9
undo
";

pub const SIZES: &str = "\
set-id #0 0 18446744073709551615
set-id #0 0 18446744073709551616
size
";

/// Layers go in three parts, and come back.
pub const KEPT_LAYERS: &str = "\
keep \"a\" \"c\" \"e\" \"g\"
undo
redo
size
undo
redo
";

pub const FEATURES: &str = "\
insert \"a\" 1 polygon 3,6 8,12 20,34 / 1,1 4,1 4,4
move-feature \"a\" @2 0
drop-feature #0 @1
clear-id #0 0
drop-layer \"b\"
insert \"a\" 2 line 2,2 2,10 10,10
move-layer \"a\" 0
mark \"m\"
undo
undo
unmark \"n\"
unmark \"m\"
marks
";

/// A feature gets attributes, and loses them.
pub const ATTRIBUTES: &str = "\
set #0 0 \"k\" int 6
set \"a\" @1 \"m\" string \"left\"
list #0 0
unset #0 0 \"k\"
exclude * \"m\"
undo
size
";

/// A feature gets other geometries, and one moves.
pub const GEOMETRIES: &str = "\
set-geometry #0 0 line 2,2 2,10 10,10 / 1,1 3,5
shift \"a\" @1 -30 3
list #0 0
set-geometry #0 0 point 25,17
shift #0 0 2147483647 0
undo
undo
undo
redo
";

/// A layer of one feature, whose key and value come after those that it does not have.
pub const UNUSED: &[u8] = b"\
    \x1a\x14\x12\x04\x12\x02\x01\x01\
    \x1a\x01m\x1a\x01k\x22\x02\x20\x06\x22\x02\x20\x05";

pub const COMPACTION: &str = "\
exclude * \"k\"
compact #0
undo
undo
set #0 0 \"k\" int 6
compact-values #0
compact-keys *
size
";

pub const MARKS: &str = "\
mark \"m\"
rename-layer #0 \"b\"
rename-layer #0 \"c\"
rename-layer #0 \"d\"
back \"m\"
history
";

pub const TWO_MARKS: &str = "\
mark \"a\"
rename-layer #0 \"b\"
rename-layer #0 \"c\"
mark \"z\"
back \"a\"
history
marks
back \"z\"
rename-layer #0 \"d\"
marks
";

pub const STEP: &str = "\
begin
rename-layer #0 \"b\"
set-id #0 0 9
history
undo
end
undo
";

pub const CANCELLED_STEP: &str = "\
rename-layer #0 \"b\"
undo
begin
set-id #0 0 9
cancel
redo
cancel
";

/// What each step took is put back.
pub const BACK_OVER_STEPS: &str = "\
mark \"m\"
begin
drop-layer \"b\"
drop-layer \"e\"
end
begin
keep \"a\" \"d\" \"g\"
move-layer \"a\" 2
rename-layer \"g\" \"z\"
end
begin
insert \"a\" 0 point 1,1
insert \"a\" 1 point 2,2
end
back \"m\"
history
";

/// What each step takes is taken again.
pub const ON_OVER_STEPS: &str = "\
keep \"a\" \"c\" \"e\" \"g\"
begin
drop-layer \"a\"
drop-layer \"e\"
end
mark \"m\"
undo
undo
back \"m\"
history
";

/// What each command of the open step took is put back.
pub const CANCELLED_KEEPS: &str = "\
begin
keep \"a\" \"c\" \"e\" \"g\"
keep \"c\" \"g\"
cancel
history
";

/// Ids go in two steps on one list, and come back.
pub const IDS_CLEARED: &str = "\
clear-id #0 0
undo
redo
undo
";

/// Both commands of the step change the same field.
pub const ID_SET_TWICE: &str = "\
begin
set-id #0 0 300
set-id #0 0 7
end
undo
redo
";

/// There is nothing to undo, or to redo, however much memory there is.
pub const FLOOR: &str = "\
undo
rename-layer #0 \"b\"
undo
undo
redo
redo
";
