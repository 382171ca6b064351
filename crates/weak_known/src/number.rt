// The numbers that say what is known of a point.
ghost use Rattle.std.specs.Prelude.{◌≡◌, cond, ltb, eqb, ◌≤◌};
ghost use Rattle.weak_known.specs.Known.{touched_number};
ghost use Rattle.weak_known.specs.Walks.{shows};

// The numbers of a point that has not two references: it is touched, it has no contour, its contour has one touched point or none.
pub const TOUCHED: u16 = 65535;

pub const NO_CONTOUR: u16 = 65534;

pub const ONE_OR_NONE: u16 = 65533;

// A touched point's number as an index.
pub const TOUCHED_INDEX: usize = 65535;

// A touched point's, or v.
pub fn number(mark: u8, v: u16) -> u16
    ensures { result ≡ cond (ltb 0 mark) touched_number v }
{
    if 0 < mark {
        return TOUCHED;
    }
    v
}

// An index as a number.
pub fn narrow(i: usize) -> u16
    requires { i ≤ 65535 }
    ensures { result ≡ i }
{
    i as u16
}

// What the neighbour i of a point hands on: itself where it is touched, or v.
pub fn handed(mark: u8, i: usize, v: u16) -> u16
    requires { i ≤ 65535 }
    ensures { result ≡ cond (ltb 0 mark) i v }
{
    if 0 < mark {
        return narrow(i);
    }
    v
}

// What the entry of the point i shows its neighbours: i itself where it says that i is touched, or what it says.
pub fn shown(entry: u16, i: usize) -> u16
    requires { i ≤ 65535 }
    ensures { result ≡ shows entry i }
{
    if entry == TOUCHED {
        return narrow(i);
    }
    entry
}

// A touched point's number where the entry says that its point is touched, or v.
pub fn number_by(entry: u16, v: u16) -> u16
    ensures { result ≡ cond (eqb entry touched_number) touched_number v }
{
    if entry == TOUCHED {
        return entry;
    }
    v
}
