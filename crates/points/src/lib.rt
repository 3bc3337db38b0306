// The public calls of the point grid: src/grid.rs of the Rust. Each but `new` checks the tables first and answers by the numbers of documents 01 and 02,
// listed with each call in their order: a handle that is not good gets 12 if it is gone, else 11. No call has a `requires`, and a refused call changes no
// table and no output.
// A point is that of the tracker, 0 to 7, that it was inserted for: a call that moves or removes it names the tracker last, and gets 13 if the number is above
// 7 and 14 if the point is another's.
// In the examples the seven tables are lent as the calls name them, and what a call writes to stands last.
#![tactic(auto)]

// Builds an empty grid with cells of this size. Refusals: 3 (wrong lengths), 2 (size outside its limits).
//     let a = points::new(nums, reals, ints, map, pool, spots, cells, 16);
//     // 0: every slot is free at version 1
pub use point_insert::new;

// A new object at a position, with its data and its tracker; queries see it at once. Refusals: 3, 6, 13, 4.
//     let wrist = Position { x: 640.0, y: 360.0 };
//     let r = points::insert(nums, reals, ints, map, pool, spots, cells, wrist, 7, 2);
//     // r.answer is 0, and r.handle names the object, which is tracker 2's, from now on
pub use point_insert::insert;

// Where the object shall be after the next maintain. Refusals: 3, 6, 13, 11, 12, 14, 1.
//     let far = Position { x: 12.5, y: 700.0 };
//     let a = points::set_position(nums, reals, ints, map, pool, spots, cells, hand, far, 2);
//     // 0, however far it is; until maintain every query still gives the old position
pub use point_deferred::set_position;

// Marks the object; the next maintain takes it out. Gives the data, again if asked again. Refusals: 3, 13, 11, 12, 14.
//     let r = points::remove(nums, reals, ints, map, pool, spots, cells, hand, 2);
//     // r.answer is 0 and r.obj the data; until maintain every query still finds it
pub use point_deferred::remove;

// Deferred calls one after the other, with one check: kind 0 is set_position, any other remove; handles has slot, version and tracker of each. Refusals: 3, 9
// with the number of calls.
//     let kinds: [u32; 2] = [0, 1];
//     let handles: [[u32; 3]; 2] = [[0, 1, 2], [1, 1, 2]];
//     let r = points::batch(nums, reals, ints, map, pool, spots, cells, &kinds, &handles, positions, out);
//     // out[0] has the answer of set_position and 0, out[1] that of remove and the data
pub use point_batch::batch;

// Applies what is pending: moves, relocations, removals. Counts the objects whose place has changed by its numbers, -0.0 being 0.0, and those removed.
// Refusals: 3.
//     let r = points::maintain(nums, reals, ints, map, pool, spots, cells);
//     // r.moved and r.removed count; from here on queries find each object at its last accepted position
pub use point_maintain_run::maintain;

// Takes the object out now, whatever its state. Gives the data. Refusals: 3, 13, 11, 12, 14.
//     let r = points::remove_maintain(nums, reals, ints, map, pool, spots, cells, hand, 2);
//     // r.obj is its data, and no query finds it any more
pub use point_remove::remove_maintain;

// Writes recorded position, data and tracker of every object, ascending by slot, and empties the grid. Refusals: 3, 9 with the number of objects.
//     let r = points::clear(nums, reals, ints, map, pool, spots, cells, places, objs);
//     // places[j] is [x, y] and objs[j] [data, tracker] for j below r.count; every old handle answers 12 from now on
pub use point_clear::clear;

// The recorded position, the data and the tracker. Refusals: 3, 11, 12.
//     let r = points::get(nums, reals, ints, map, pool, spots, cells, hand);
//     // r.position is where the last maintain put it (or insert), r.obj its data, r.tracker its tracker
pub use point_get::get;

// The number of objects; removed ones count until maintain. Refusals: 3.
//     let r = points::len(nums, reals, ints, map, pool, spots, cells);
//     // r.count
pub use point_get::len;

// The handles of the objects, ascending by slot. Refusals: 3, 9 with the number found.
//     let r = points::handles(nums, reals, ints, map, pool, spots, cells, found);
//     // found[j] is [slot, version] for j below r.count
pub use point_get::handles;

// All entries of the range from the cell of ll to that of ur: handles, and beside them positions, and data with trackers. Refusals: 3, 6, 7, 9 with the
// number found.
//     let ll = Position { x: 0.0, y: 0.0 };
//     let r = points::query(nums, reals, ints, map, pool, spots, cells, ll, Position { x: 319.0, y: 239.0 }, found, places, objs);
//     // found[j], places[j] and objs[j], which is [data, tracker], for j below r.count: all of the cells, so also some outside the corners
pub use point_query::query;

// The entries strictly inside a circle. Refusals: 3, 6, 7, 9 with the number found.
//     let wrist = Position { x: 640.0, y: 360.0 };
//     let r = points::query_around(nums, reals, ints, map, pool, spots, cells, wrist, 60.0, found, places, objs);
//     // found[j], places[j] and objs[j] for j below r.count; nothing at distance 60 itself
pub use point_query::query_around;

// The entries of a rectangle, whatever the order of its corners, edges included. Refusals: 3, 6, 7, 9 with the number found.
//     let corner = Position { x: 700.0, y: 300.0 };
//     let r = points::query_aabb(nums, reals, ints, map, pool, spots, cells, corner, Position { x: 580.0, y: 420.0 }, found, places, objs);
//     // found[j], places[j] and objs[j] for j below r.count; the edges belong to it
pub use point_query::query_aabb;

// The nearest of the entries strictly inside a circle; of equally near ones that of the lowest slot. Refusals: 3, 6, 7.
//     let wrist = Position { x: 640.0, y: 360.0 };
//     let r = points::nearest(nums, reals, ints, map, pool, spots, cells, wrist, 60.0);
//     // r.count is 1, and r.handle, r.position, r.obj and r.tracker are what query_around would report of it; 0 and zeros if it finds none
pub use point_nearest::nearest;
