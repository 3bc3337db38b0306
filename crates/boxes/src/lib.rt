// The public calls of the box grid: src/aabbgrid.rs of the Rust. Each but `new` checks the tables first and answers by the numbers of documents 01 and 02,
// listed with each call in their order: a handle that is not good gets 12 if it is gone, else 11. No call has a `requires`, and a refused call changes no
// table and no output.
// In the examples the four tables are lent as the calls name them, and what a call writes to stands last.
#![tactic(auto)]

// Builds an empty grid with cells of this size. Refusals: 3 (wrong lengths), 2 (size outside its limits).
//     let a = boxes::new(nums, reals, map, pool, 16);
//     // 0: every slot is free at version 1
pub use box_insert::new;

// A new object with a box; every cell that it covers lists it. Refusals: 3, 6, 7, 4, 8.
//     let face = Aabb { ll: Position { x: 560.0, y: 80.0 }, ur: Position { x: 720.0, y: 280.0 } };
//     let r = boxes::insert(nums, reals, map, pool, face, 7);
//     // r.answer is 0, and r.handle names the object from now on
pub use box_insert::insert;

// Another box for the object, at once. Refusals: 3, 6, 11, 12, 7, 8.
//     let face = Aabb { ll: Position { x: 600.0, y: 80.0 }, ur: Position { x: 760.0, y: 280.0 } };
//     let a = boxes::set_aabb(nums, reals, map, pool, care, face);
//     // 0: queries see it at once; 8 if the pool has no room for its cells, and then nothing changed
pub use box_set::set_aabb;

// Takes the object out at once and gives its data. Refusals: 3, 11, 12.
//     let r = boxes::remove(nums, reals, map, pool, care);
//     // r.obj is its data, and no query finds it any more
pub use box_remove::remove;

// Writes box and data of each object, ascending by slot, then empties the grid. Refusals: 3, 9.
//     let r = boxes::clear(nums, reals, map, pool, areas, objs);
//     // areas[j] and objs[j] for j below r.count; every old handle answers 12 from now on
pub use box_clear::clear;

// The box and the data. Refusals: 3, 11, 12.
//     let r = boxes::get(nums, reals, map, pool, care);
//     // r.aabb and r.obj
pub use box_get::get;

// The number of objects. Refusals: 3.
//     let r = boxes::len(nums, reals, map, pool);
//     // r.count
pub use box_get::len;

// The handles of the objects, ascending by slot. Refusals: 3, 9.
//     let r = boxes::handles(nums, reals, map, pool, found);
//     // found[j] is [slot, version] for j below r.count
pub use box_get::handles;

// The handles of the boxes that share a cell with the query box, each once, at its first place in the walk. Refusals: 3, 6, 7, 9.
//     let frame = Aabb { ll: Position { x: 0.0, y: 0.0 }, ur: Position { x: 1279.0, y: 719.0 } };
//     let r = boxes::query_broad(nums, reals, map, pool, frame, found);
//     // found[j] is [slot, version] for j below r.count
pub use box_query::query_broad;

// Handle, box and data of those that the query box intersects, by the rounded test. Refusals: 3, 6, 7, 9.
//     let hand = Aabb { ll: Position { x: 580.0, y: 300.0 }, ur: Position { x: 700.0, y: 420.0 } };
//     let r = boxes::query(nums, reals, map, pool, hand, found, areas, objs);
//     // found[j], areas[j] and objs[j] for j below r.count
pub use box_query::query;
