// Internal: the wraparound tests over Field128, a block of tests at a time. Each limb of the coordinates goes
// into a row of sums, and the three sums of a test are its result. Many tests go by tables of all three limbs,
// modulo 2^64; few go limb by limb by Field64's weights. A function here asks its caller for what it does not
// test itself.
#![tactic(auto)]

ghost use Rattle.std.specs.Prelude.{◌≡◌, ◌+◌, ◌*◌, ◌≤◌, ◌<◌, length};
ghost use Rattle.field64.specs.Field.{p64};
ghost use Rattle.rows.specs.Rows.{Below};
ghost use Rattle.field128.specs.Field128.{p128, elements_of, words_of, Whole};
ghost use Rattle.flp.specs.Tests.{tests_of};
ghost use Rattle.groups.specs.Groups.{add_group, room_for};
ghost use Rattle.limbs.specs.Limbs.{limbs, modulus_for, width_for, spare_for, SameLength};

// Adds to each sum what n bytes of its test, from byte j on, make of limb k of these coordinates, modulo p of
// Field64. The row, for the limbs, is spoilt, and so is the spare row.
fn add_limb(
    part: &[u64],
    k: u64,
    per: usize,
    j: usize,
    n: usize,
    stream: &[u8],
    row: &mut [u64],
    spare: &mut [u64],
    sums: &mut [u64],
)
    requires per_in_bounds { (length sums.old * per ≤ length stream.now) × ((j + n ≤ per) × (n ≤ 64)) }
    requires k_bound { (k ≤ 2) × (length row.old ≡ length (elements_of part.now)) }
    requires part_len_bound { (length (elements_of part.now) ≤ 4 * n) × (room_for (length sums.old) n ≤ length spare.old) }
    requires below { Below p64 sums.old }
    ensures { sums.new ≡ add_group p64 per j n (limbs k (elements_of part.now)) stream.now sums.old }
{
    limbs::write_limbs(part, k, row);
    columns::add_group(row, per, j, n, stream, spare, sums);
}

// The same of every limb, each into a row of sums.
fn add_reduced(
    part: &[u64],
    per: usize,
    j: usize,
    n: usize,
    stream: &[u8],
    row: &mut [u64],
    spare: &mut [u64],
    low: &mut [u64],
    middle: &mut [u64],
    high: &mut [u64],
)
    requires per_in_bounds { (length low.old * per ≤ length stream.now) × ((j + n ≤ per) × (n ≤ 64)) }
    requires row_len { length row.old ≡ length (elements_of part.now) }
    requires part_len_bound { (length (elements_of part.now) ≤ 4 * n) × (room_for (length low.old) n ≤ length spare.old) }
    requires middle_len { (length middle.old ≡ length low.old) × (length high.old ≡ length low.old) }
    requires below { Below p64 low.old × (Below p64 middle.old × Below p64 high.old) }
    ensures low_after { low.new ≡ add_group p64 per j n (limbs 0 (elements_of part.now)) stream.now low.old }
    ensures middle_after { middle.new ≡ add_group p64 per j n (limbs 1 (elements_of part.now)) stream.now middle.old }
    ensures high_after { high.new ≡ add_group p64 per j n (limbs 2 (elements_of part.now)) stream.now high.old }
{
    add_limb(part, 0, per, j, n, stream, row, spare, low);
    add_limb(part, 1, per, j, n, stream, row, spare, middle);
    add_limb(part, 2, per, j, n, stream, row, spare, high);
}

// The same, modulo p of Field64 for few tests, modulo 2^64 for many.
fn add_limbs(
    part: &[u64],
    per: usize,
    j: usize,
    n: usize,
    stream: &[u8],
    row: &mut [u64],
    spare: &mut [u64],
    low: &mut [u64],
    middle: &mut [u64],
    high: &mut [u64],
)
    requires per_in_bounds { (length low.old * per ≤ length stream.now) × ((j + n ≤ per) × (n ≤ width_for (length low.old))) }
    requires row_len { length row.old ≡ length (elements_of part.now) }
    requires part_len_bound { (length (elements_of part.now) ≤ 4 * n) × (spare_for (length low.old) ≤ length spare.old) }
    requires middle_len { (length middle.old ≡ length low.old) × (length high.old ≡ length low.old) }
    requires below { Below (modulus_for (length low.old)) low.old × (Below (modulus_for (length low.old)) middle.old × Below (modulus_for (length low.old)) high.old) }
    ensures low_after { low.new ≡ add_group (modulus_for (length low.old)) per j n (limbs 0 (elements_of part.now)) stream.now low.old }
    ensures middle_after { middle.new ≡ add_group (modulus_for (length low.old)) per j n (limbs 1 (elements_of part.now)) stream.now middle.old }
    ensures high_after { high.new ≡ add_group (modulus_for (length low.old)) per j n (limbs 2 (elements_of part.now)) stream.now high.old }
{
    if low.len() <= limb_tables::FEW {
        add_reduced(part, per, j, n, stream, row, spare, low, middle, high);
        return;
    }
    limb_tables::add_tabled(part, per, j, n, stream, row, spare, low, middle, high);
}

// The tests on each limb, group by group, up to so many bytes each.
fn run_groups(
    gradient: &[u64],
    per: usize,
    width: usize,
    stream: &[u8],
    row: &mut [u64],
    spare: &mut [u64],
    low: &mut [u64],
    middle: &mut [u64],
    high: &mut [u64],
)
    requires per_in_bounds { (length low.old * per ≤ length stream.now) × ((length (elements_of gradient.now) ≤ 4 * per) × (per < 65536)) }
    requires width_nonzero { ((0 < width) × (width ≤ width_for (length low.old))) × ((4 * width ≤ length row.old) × (spare_for (length low.old) ≤ length spare.old)) }
    requires middle_len { (length middle.old ≡ length low.old) × (length high.old ≡ length low.old) }
    ensures low_after { low.new ≡ tests_of (modulus_for (length low.old)) per (length low.old) stream.now (limbs 0 (elements_of gradient.now)) }
    ensures middle_after { middle.new ≡ tests_of (modulus_for (length low.old)) per (length low.old) stream.now (limbs 1 (elements_of gradient.now)) }
    ensures high_after { high.new ≡ tests_of (modulus_for (length low.old)) per (length low.old) stream.now (limbs 2 (elements_of gradient.now)) }
{
    rows::zero_row(low);
    rows::zero_row(middle);
    rows::zero_row(high);
    for j in (0..per).step_by(width) {
        let group = groups::group_from(j, width, per, gradient.len() / 2);
        let first = 2 * group.first;
        let last = 2 * group.last;
        let count = group.last - group.first;
        let n = group.end - j;
        add_limbs(
            &gradient[first..last],
            per,
            j,
            n,
            stream,
            &mut row[0..count],
            spare,
            low,
            middle,
            high,
        );
    }
}

// The same, and each test's result by its three sums. All rows but the last are spoilt.
fn run_limbs(
    gradient: &[u64],
    per: usize,
    width: usize,
    stream: &[u8],
    row: &mut [u64],
    spare: &mut [u64],
    low: &mut [u64],
    middle: &mut [u64],
    high: &mut [u64],
    results: &mut [u64],
)
    requires per_in_bounds { (length low.old * per ≤ length stream.now) × ((length (elements_of gradient.now) ≤ 4 * per) × (per ≤ 16384)) }
    requires width_nonzero { ((0 < width) × (width ≤ width_for (length low.old))) × ((4 * width ≤ length row.old) × (spare_for (length low.old) ≤ length spare.old)) }
    requires same_length { SameLength (length (elements_of results.old)) low.old middle.old high.old }
    requires whole { Whole results.old × Below p128 (elements_of gradient.now) }
    ensures { results.new ≡ words_of (tests_of p128 per (length (elements_of results.old)) stream.now (elements_of gradient.now)) }
{
    run_groups(gradient, per, width, stream, row, spare, low, middle, high);
    let reduced = low.len() <= limb_tables::FEW;
    limbs::join_rows(reduced, low, middle, high, results);
}

// Runs a block of tests, as many as there are results, each with `per` bytes of the stream.
pub fn run_block(gradient: &[u64], per: usize, stream: &[u8], results: &mut [u64])
    requires per_in_bounds { (length (elements_of results.old) * per ≤ length stream.now) × ((length (elements_of gradient.now) ≤ 4 * per) × (per ≤ 16384)) }
    requires whole { (Whole results.old × (length (elements_of results.old) ≤ 256)) × Below p128 (elements_of gradient.now) }
    ensures { results.new ≡ words_of (tests_of p128 per (length (elements_of results.old)) stream.now (elements_of gradient.now)) }
{
    let tests = results.len() / 2;
    if tests <= limb_tables::FEW {
        let mut row = [0u64; 256];
        let mut weights = [0u64; 256];
        let mut low = [0u64; 2];
        let mut middle = [0u64; 2];
        let mut high = [0u64; 2];
        run_limbs(
            gradient,
            per,
            64,
            stream,
            &mut row,
            &mut weights,
            &mut low[..tests],
            &mut middle[..tests],
            &mut high[..tests],
            results,
        );
        return;
    }
    let mut row = [0u64; 32];
    let mut tables = [0u64; 768];
    let mut low = [0u64; 256];
    let mut middle = [0u64; 256];
    let mut high = [0u64; 256];
    run_limbs(
        gradient,
        per,
        limb_tables::WIDTH,
        stream,
        &mut row,
        &mut tables,
        &mut low[..tests],
        &mut middle[..tests],
        &mut high[..tests],
        results,
    );
}
