// The moves of a stem onto the pixel grid, by how far its two edges are above a pixel edge.
ghost use Rattle.std.specs.Prelude.{◌≡◌, pos};
ghost use Rattle.std.specs.Int.Signed.{rem_z};
ghost use Rattle.signed.specs.Range.{Between, I32};
ghost use Rattle.stems_cjk.specs.Cjk.{pixel_offset, narrow_delta, is_blocked, down_or_up, smaller_of, shortest_move, wide_delta, offsets_delta, most_width, most_move};

use fixed::pixel::pix_floor;
use fixed::point::magnitude;

// How far a position is above the pixel edge below it.
pub fn pixel_offset(pos: i32) -> i32
    ensures { (result ≡ pixel_offset pos) × I32 0 63 result }
{
    pos - pix_floor(pos)
}

// The move of a stem within the threshold: up to the pixel edge inside it, or down to it where that is nearer; none where no pixel edge lies inside.
fn narrow_delta(d_off1: i32, d_off2: i32, cur_len: i32) -> i32
    requires { Between 0 63 d_off1 × Between 0 63 d_off2 }
    ensures { result ≡ narrow_delta d_off1 d_off2 cur_len }
{
    if d_off2 < cur_len {
        let u_off1 = 64 - d_off1;
        if u_off1 <= d_off2 {
            return u_off1;
        }
        return 0 - d_off2;
    }
    0
}

// Whether an edge is within the gap of a pixel edge, and so stays.
fn is_blocked(d_off1: i32, d_off2: i32, threshold: i32) -> bool
    requires { Between 0 63 d_off1 × Between 0 63 d_off2 }
    ensures { result ≡ is_blocked d_off1 d_off2 threshold }
{
    if threshold < 64 {
        if threshold <= d_off1 {
            return true;
        }
        if threshold <= 64 - d_off1 {
            return true;
        }
        if threshold <= d_off2 {
            return true;
        }
        return threshold <= 64 - d_off2;
    }
    false
}

// Down by one distance, or up by the other where that is less.
fn down_or_up(down: i32, up: i32) -> i32
    requires { Between most_move most_move down × Between most_move most_move up }
    ensures { (result ≡ down_or_up down up) × I32 most_move most_move result }
{
    if down <= up {
        return 0 - down;
    }
    up
}

// The smaller move, the first on a tie.
fn smaller_of(first: i32, second: i32) -> i32
    requires { Between most_move most_move first × Between most_move most_move second }
    ensures { result ≡ smaller_of first second }
{
    if magnitude(first as i64) <= magnitude(second as i64) {
        return first;
    }
    second
}

// The shortest move that brings an edge of a stem to a pixel edge.
fn shortest_move(d_off1: i32, d_off2: i32, offset: i32, threshold: i32) -> i32
    requires { Between 0 63 d_off1 × Between 0 63 d_off2 × Between 0 64 offset × Between 0 64 threshold }
    ensures { result ≡ shortest_move d_off1 d_off2 offset threshold }
{
    let u_off1 = 64 - d_off1;
    let first = down_or_up(threshold - u_off1, u_off1 - offset);
    let second = down_or_up(d_off2 - offset, threshold - d_off2);
    smaller_of(first, second)
}

// What a width leaves behind its whole pixels: the Rust's `& 63`, which no negative width reaches, so a remainder.
fn part_of_pixel(cur_len: i32) -> i32
    requires { Between 0 most_width cur_len }
    ensures { (result ≡ rem_z cur_len (pos 64)) × I32 0 63 result }
{
    cur_len % 64
}

// The move of a stem above the threshold.
fn wide_delta(d_off1: i32, d_off2: i32, cur_len: i32, threshold: i32) -> i32
    requires { Between 0 63 d_off1 × Between 0 63 d_off2 × Between 0 most_width cur_len × Between 0 64 threshold }
    ensures { result ≡ wide_delta d_off1 d_off2 cur_len threshold }
{
    let offset = part_of_pixel(cur_len);
    if offset < 32 {
        if 64 - d_off1 <= offset {
            return 0;
        }
        if d_off2 <= offset {
            return 0;
        }
        return shortest_move(d_off1, d_off2, offset, threshold);
    }
    shortest_move(d_off1, d_off2, 64 - threshold, threshold)
}

// The move of a stem: none where an edge is on a pixel edge already.
pub fn offsets_delta(d_off1: i32, d_off2: i32, cur_len: i32, threshold: i32) -> i32
    requires { Between 0 63 d_off1 × Between 0 63 d_off2 × Between most_width most_width cur_len × Between 0 64 threshold }
    ensures { result ≡ offsets_delta d_off1 d_off2 cur_len threshold }
{
    if d_off1 == 0 {
        return 0;
    }
    if d_off2 == 0 {
        return 0;
    }
    if cur_len <= threshold {
        return narrow_delta(d_off1, d_off2, cur_len);
    }
    if is_blocked(d_off1, d_off2, threshold) {
        return 0;
    }
    wide_delta(d_off1, d_off2, cur_len, threshold)
}
