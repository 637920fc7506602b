// The error locator: of nine rows, the powers 1, x, .., x^8, each of eight lists of sums takes one away. No division, and no search for a pivot.
ghost use Rattle.std.specs.Prelude.{◌≡◌, ℕ, ◌<◌, ◌≤◌, ◌-◌, length, drop, take, get_or};
ghost use Rattle.nearest.specs.Search.{dot, mix, cut, error_locator};

// The first nine bytes with 7 zeros behind them, since 16 products at once are quicker than nine.
fn widened(bytes: &[u8]) -> [u8; 16]
    requires { 9 ≤ length bytes.now }
    ensures { (i : ℕ) → i < 9 → get_or result i 0 ≡ get_or bytes.now i 0 }
{
    let mut out = [0u8; 16];
    out[..9].copy_from_slice(&bytes[..9]);
    out
}

// What sums make of a row.
fn dot_of(row: [u8; 9], sums: &[u8]) -> u8
    requires { 9 ≤ length sums.now }
    ensures { result ≡ dot row sums.now }
{
    let products = field::products(widened(&row), widened(sums));
    products[..9]
        .iter()
        .rev()
        .fold(0, |sum, product| *product ^ sum)
}

// x times a row and y times another.
fn mix_rows(x: u8, row: [u8; 9], y: u8, other: [u8; 9]) -> [u8; 9]
    ensures { result ≡ mix x row y other }
{
    let p = field::scaled(x, widened(&row));
    let q = field::scaled(y, widened(&other));
    std::array::from_fn(|i| p[i] ^ q[i])
}

// The sums from an index on take one of the first 9 - from rows away. By an index: each row is made of itself and of the next.
fn cut_rows(rows: [[u8; 9]; 9], sums: [u8; 16], from: usize) -> [[u8; 9]; 9]
    requires { from < 8 }
    ensures { take (8 - from) result ≡ cut (drop from sums) (take (9 - from) rows) }
{
    let mut out = rows;
    let mut carried = rows[0];
    let later = &sums[from..];
    let mut x = dot_of(carried, later);
    for i in 0..8 - from {
        let next = rows[i + 1];
        let y = dot_of(next, later);
        if x == 0 {
            out[i] = carried;
            carried = next;
            x = y;
        } else {
            out[i] = mix_rows(x, next, y, carried);
        }
    }
    out
}

// The row that is left of nine.
pub fn locate(sums: [u8; 16]) -> [u8; 9]
    ensures { result ≡ error_locator sums }
{
    let mut rows = [
        [1u8, 0, 0, 0, 0, 0, 0, 0, 0],
        [0u8, 1, 0, 0, 0, 0, 0, 0, 0],
        [0u8, 0, 1, 0, 0, 0, 0, 0, 0],
        [0u8, 0, 0, 1, 0, 0, 0, 0, 0],
        [0u8, 0, 0, 0, 1, 0, 0, 0, 0],
        [0u8, 0, 0, 0, 0, 1, 0, 0, 0],
        [0u8, 0, 0, 0, 0, 0, 1, 0, 0],
        [0u8, 0, 0, 0, 0, 0, 0, 1, 0],
        [0u8, 0, 0, 0, 0, 0, 0, 0, 1],
    ];
    for from in 0..8 {
        rows = cut_rows(rows, sums, from);
    }
    rows[0]
}
