// The way of a slot: the keys of the cells that its box covers, one after the other.
ghost use Rattle.std.specs.Prelude.{◌≤◌, ◌<◌};
ghost use Rattle.basics.specs.Words.{length, T};
ghost use Rattle.basics.specs.Meaning.Limits.{most_boxes, most_cells};
ghost use Rattle.geometry.specs.Meaning.Domain.{in_domain, aabb_in_domain};
ghost use Rattle.cells.specs.Meaning.Size.{SizeInDomain};
ghost use Rattle.cells.specs.Meaning.Range.{cells_in};
ghost use Rattle.box_tables.specs.Meaning.Tables;
ghost use Rattle.box_tables.specs.Meaning.Tables.{aabb_at};
ghost use Rattle.box_tables.specs.Inner.Way.{span_of, span_by, Upright, way_of, way_at};
ghost use Rattle.box_tables.specs.Inner.Check.{BoxOk, SlotOk, Readable, Given};

use crate::guess::{guess, near_cell, one_cell};
use crate::spans::{item_of, load_box};
use cells::Cell;
use geometry::Aabb;
use slots::Row;

// A way: its first key, its last, the step from the end of a row to the next, and the item.
#[derive(Clone, Copy)]
pub struct Way {
    pub first: u64,
    pub last: u64,
    pub jump: u64,
    pub item: u64,
}

// The way of a box through its cells; none if they are too many.
fn way_of(s: usize, a: Cell, b: Cell) -> Option<Way>
    requires { (s < most_boxes) × Upright a b }
    ensures { Given (cells_in a b ≤ most_cells) (way_of s (span_by a b)) result }
{
    let low = cells::key_of(a);
    let high = cells::key_of(b);
    let wide = cells::column_of(high) - cells::column_of(low);
    let tall = cells::row_of(high) - cells::row_of(low);
    let cells = (wide + 1) * (tall + 1);
    if basics::MOST_CELLS < cells {
        return None;
    }
    Some(Way {
        first: low,
        last: high,
        jump: 4294967296 - wide,
        item: item_of(s, cells == 1),
    })
}

// The way of a box of the domain.
fn wide_way(size: u64, rate: f32, s: usize, b: Aabb) -> Option<Way>
    requires { (s < most_boxes) × SizeInDomain size × T (aabb_in_domain b) × T (in_domain rate) }
    ensures { Given (Tables.covers size b ≤ most_cells) (way_of s (span_of size b)) result }
{
    let low = Cell {
        x: near_cell(size, rate, b.ll.x),
        y: near_cell(size, rate, b.ll.y),
    };
    let high = Cell {
        x: near_cell(size, rate, b.ur.x),
        y: near_cell(size, rate, b.ur.y),
    };
    way_of(s, low, high)
}

// The way of an occupied slot; none if the box is not one of a grid. A box of one cell needs no count.
fn live_way(reals: &[[f32; 4]], size: u64, rate: f32, s: usize) -> Option<Way>
    requires { (s < length reals.now) × (s < most_boxes) × SizeInDomain size × T (in_domain rate) }
    ensures { Given (BoxOk size (aabb_at reals.now s)) (way_of s (span_of size (aabb_at reals.now s))) result }
{
    let b = load_box(reals, s);
    if !geometry::aabb_in_domain(b) {
        return None;
    }
    let c = Cell {
        x: guess(rate, b.ll.x),
        y: guess(rate, b.ll.y),
    };
    if one_cell(size, b, c) {
        let key = cells::key_of(c);
        return Some(Way {
            first: key,
            last: key,
            jump: 4294967296,
            item: item_of(s, true),
        });
    }
    wide_way(size, rate, s, b)
}

// The way of slot s, on which no key comes if it is not occupied; none if the slot does not hold.
pub fn slot_way(
    nums: &[Row],
    reals: &[[f32; 4]],
    map: &[u64],
    size: u64,
    rate: f32,
    s: usize,
) -> Option<Way>
    requires { Readable nums.now reals.now map.now s × SizeInDomain size × T (in_domain rate) }
    ensures { Given (SlotOk nums.now reals.now map.now size s) (way_at nums.now reals.now size s) result }
{
    let n = nums[s];
    let mapped = slots::is_usable(map, s);
    if !slots::slot_ok(n[0], n[1], mapped) {
        return None;
    }
    if n[1] == slots::LIVE {
        return live_way(reals, size, rate, s);
    }
    Some(Way {
        first: 1,
        last: 0,
        jump: 1,
        item: item_of(s, false),
    })
}
