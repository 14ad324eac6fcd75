// Internal: the wraparound seed of a report. Before the last rule is met nothing is written, so that both shares go into the
// wraparound parts by pieces; where the helper's values run out, zeros go in. A function here asks its caller for what it
// does not test itself.
#![tactic(auto)]

ghost use Rattle.std.specs.Prelude.{◌≡◌, ◌++◌, ℕ, ◌*◌, ◌≤◌, length, leb};
ghost use Rattle.rules.specs.Rules.{accepted};
ghost use Rattle.field64.specs.Field.{p64};
ghost use Rattle.doubles.specs.Doubles.{floor_limit64, power};
ghost use Rattle.pine.specs.Param.{Field64, param_answer};
ghost use Rattle.pine.specs.Record.{encoded_input_len_of, pine_of};
ghost use Rattle.rows.specs.Rows.{Below};
ghost use Rattle.flp.specs.Bits.{bits};
ghost use Rattle.flp.specs.Encode.{elements, sq_norm};
ghost use Rattle.measurement.specs.Parts.{Usable};
ghost use Rattle.turboshake.specs.Stream.{drawn};
ghost use Rattle.sampler.specs.Sampler.{draw_limit, values_of, draws_rule};
ghost use Rattle.shares.specs.Shares.{helper_stream, wr_seed};
ghost use Rattle.wr_parts.specs.Pieces.{Placed, Begun, TookPiece};

use pine::PineParam;
use pine::record::Pine;
use turboshake::Sponge;

// The elements of a piece of the gradient, as many as the sampler draws at a time.
const PIECE: usize = 63;

// The elements of a row for a piece: a number's bits have room.
const ROW: usize = 64;

// The state of both wraparound parts, and of the stream of the helper's share, with the draws that are left.
#[derive(Clone, Copy)]
pub struct Parts {
    pub leader: Sponge,
    pub helper: Sponge,
    pub stream: Sponge,
    pub left: usize,
}

// The wraparound seed, and whether there are enough of the helper's values.
#[derive(Clone, Copy)]
pub struct Seeded {
    pub seed: [u8; 16],
    pub enough: bool,
}

// Before the first piece.
fn begin_parts(nonce: &[u8], seeds: &[u8], left: usize) -> Parts
    requires { length seeds.now ≡ 80 }
    ensures begun { Begun nonce.now seeds.now left result }
    ensures by_index { (n : ℕ) → drawn (8 * draw_limit n) result.stream ≡ helper_stream n seeds.now }
{
    let leader = joint_rand::begin_part(
        xof::USAGE_WR_JOINT_RAND_PART,
        shares::LEADER,
        shares::seed_at(seeds, shares::WR_BLIND_0),
        nonce,
    );
    let helper = joint_rand::begin_part(
        xof::USAGE_WR_JOINT_RAND_PART,
        shares::HELPER,
        shares::seed_at(seeds, shares::WR_BLIND_1),
        nonce,
    );
    Parts {
        leader,
        helper,
        stream: shares::helper_stream(seeds),
        left,
    }
}

// The next elements of the measurement, with a row for the helper's. Both rows become those of the shares.
fn take_both(from: Parts, helper: &mut [u64], row: &mut [u64]) -> Parts
    requires placed { Placed from }
    requires below { Below p64 row.old × (length helper.old ≡ length row.old) }
    ensures { TookPiece p64 from result row.old }
{
    let drew = sampler::draw_row(from.stream, from.left, helper);
    rows::sub_rows(row, helper);
    let stream = drew.stream;
    Parts {
        leader: from.leader.absorb_words(row),
        helper: from.helper.absorb_words(helper),
        stream,
        left: drew.left,
    }
}

// The next elements of the measurement, of which the row is spoilt.
fn take_piece(from: Parts, row: &mut [u64]) -> Parts
    requires placed { Placed from }
    requires below { Below p64 row.old × (length row.old ≤ 64) }
    ensures { TookPiece p64 from result row.old }
{
    let mut helper = [0u64; ROW];
    let n = row.len();
    take_both(from, &mut helper[..n], row)
}

// The elements of some coordinates, with a row of as many.
fn take_elements(from: Parts, part: &[f64], scale: f64, frac_bits: u64, row: &mut [u64]) -> Parts
    requires placed { Placed from }
    requires usable { Usable floor_limit64 frac_bits part.now × (scale ≡ power frac_bits) }
    requires row_len { (length row.old ≡ length part.now) × (length part.now ≤ 64) }
    ensures { TookPiece p64 from result (elements p64 frac_bits part.now) }
{
    measurement::write_elements(part, scale, frac_bits, row);
    take_piece(from, row)
}

// The bits of a number, with a row of as many.
fn take_bits(from: Parts, value: u64, row: &mut [u64]) -> Parts
    requires placed { Placed from }
    requires row_len_bound { length row.old ≤ 64 }
    ensures { TookPiece p64 from result (bits (length row.old) value) }
{
    measurement::write_bits(value, row);
    take_piece(from, row)
}

// The gradient's elements, then q bits of v and of u. One row serves every piece.
fn take_all(
    from: Parts,
    gradient: &[f64],
    scale: f64,
    frac_bits: u64,
    q: usize,
    v: u64,
    u: u64,
) -> Parts
    requires placed { Placed from }
    requires usable { Usable floor_limit64 frac_bits gradient.now × (scale ≡ power frac_bits) }
    requires q_bound { q ≤ 64 }
    ensures { TookPiece p64 from result (elements p64 frac_bits gradient.now ++ (bits q v ++ bits q u)) }
{
    let mut row = [0u64; ROW];
    let mut parts = from;
    for piece in gradient.chunks(PIECE) {
        let n = piece.len();
        parts = take_elements(parts, piece, scale, frac_bits, &mut row[..n]);
    }
    parts = take_bits(parts, v, &mut row[..q]);
    parts = take_bits(parts, u, &mut row[..q]);
    parts
}

// The wraparound seed of a gradient whose squared norm modulo p is v, and whether the helper's stream has enough values for
// a whole share: the seed is right where it has. The values are drawn once for both.
pub fn wr_seed(
    param: PineParam,
    pine: Pine,
    gradient: &[f64],
    v: u64,
    nonce: &[u8],
    seeds: &[u8],
) -> Seeded
    requires pine_value { (pine ≡ pine_of param) × (param_answer Field64 param ≡ accepted) }
    requires usable { Usable floor_limit64 param.frac_bits gradient.now × (v ≡ sq_norm p64 (elements p64 param.frac_bits gradient.now)) }
    requires gradient_len { (length gradient.now ≡ param.dimension) × (length seeds.now ≡ 80) }
    ensures enough_value { result.enough ≡ leb (encoded_input_len_of param) (length (values_of p64 (draw_limit (encoded_input_len_of param)) (helper_stream (encoded_input_len_of param) seeds.now))) }
    ensures seed_value { draws_rule p64 (encoded_input_len_of param) (helper_stream (encoded_input_len_of param) seeds.now) ≡ accepted → result.seed ≡ wr_seed Field64 param gradient.now nonce.now seeds.now }
{
    let len = pine.encoded_input_len as usize;
    let begun = begin_parts(nonce, seeds, len + sampler::MORE_DRAWS as usize);
    let u = field64::sub(pine.sq_norm_bound, v);
    let q = pine.sq_norm_bits as usize;
    let parts = take_all(begun, gradient, pine.scale, pine.frac_bits, q, v, u);
    let wanted = len - (gradient.len() + 2 * q);
    let enough = sampler::has_values(parts.stream, parts.left, wanted);
    let leader = joint_rand::into_seed(parts.leader);
    let helper = joint_rand::into_seed(parts.helper);
    let seed = joint_rand::joint_rand_seed(xof::USAGE_WR_JOINT_RAND_SEED, leader, helper);
    Seeded { seed, enough }
}
