// Internal: XofTurboShake128, the stream of a seed of 16 bytes, under the tag that the Rust's `dst` makes of its
// algorithm id and a usage.
#![tactic(auto)]

ghost use Rattle.std.specs.Prelude.{◌≡◌, ◌∷◌, ◌++◌, ◌<◌, length};
ghost use Rattle.turboshake.specs.Stream.{absorb_all, start, finished, stream_of};
ghost use Rattle.xof.specs.Xof.{algorithm_id, dst, before_binder, xof_turbo_shake128};

use turboshake::Sponge;

// The usages, by the Rust's names.
pub const USAGE_MEAS_SHARE: u16 = 1;

pub const USAGE_VF_JOINT_RAND_SEED: u16 = 6;

pub const USAGE_VF_JOINT_RAND_PART: u16 = 7;

pub const USAGE_WR_JOINT_RAND: u16 = 8;

pub const USAGE_WR_JOINT_RAND_SEED: u16 = 9;

pub const USAGE_WR_JOINT_RAND_PART: u16 = 10;

// The domain byte.
const DOMAIN: u8 = 1;

// The tag, after a byte with its length.
fn tag(usage: u16) -> [u8; 8]
    ensures { result ≡ length (dst algorithm_id usage) ∷ dst algorithm_id usage }
{
    let [high, low] = usage.to_be_bytes();
    [7, 1, 0xff, 0xff, 0xff, 0xff, high, low]
}

// The seed that a row of 16 bytes has.
pub fn seed_of(row: &[u8]) -> [u8; 16]
    requires { length row.now ≡ 16 }
    ensures { result ≡ row.now }
{
    let mut seed = [0; 16];
    seed.copy_from_slice(row);
    seed
}

// The state after the tag and a seed. The binder is to follow, by any pieces, then `into_seed_stream`.
pub fn init(seed: [u8; 16], usage: u16) -> Sponge
    ensures { (result ≡ absorb_all (before_binder seed (dst algorithm_id usage)) start) × (result.at < 168) }
{
    let tag = tag(usage);
    Sponge::new().absorb(&tag).absorb(&seed)
}

// The stream, from its first byte on, when the binder is whole.
pub fn into_seed_stream(sponge: Sponge) -> Sponge
    requires { sponge.at < 168 }
    ensures { (result ≡ finished 1 sponge) × (result.at < 168) }
{
    sponge.finish(DOMAIN)
}

// The stream of a seed and a binder, from its first byte on.
pub fn seed_stream(seed: [u8; 16], usage: u16, binder: &[u8]) -> Sponge
    ensures { (result ≡ stream_of (before_binder seed (dst algorithm_id usage) ++ binder.now) 1) × (result.at < 168) }
{
    into_seed_stream(init(seed, usage).absorb(binder))
}

// Fills a row with the stream's first bytes.
pub fn fill(seed: [u8; 16], usage: u16, binder: &[u8], out: &mut [u8])
    ensures { out.new ≡ xof_turbo_shake128 seed (dst algorithm_id usage) binder.now (length out.old) }
{
    seed_stream(seed, usage, binder).fill(out);
}
