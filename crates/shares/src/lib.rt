// Internal: both measurement shares of a report and its verification seed, with the five seeds in one row. A function here
// asks its caller for what it does not test itself.
#![tactic(auto)]

ghost use Rattle.std.specs.Prelude.{◌≡◌, ◌++◌, ℕ, ◌*◌, ◌≤◌, ◌<◌, length};
ghost use Rattle.rules.specs.Rules.{accepted};
ghost use Rattle.field64.specs.Field.{p64};
ghost use Rattle.rows.specs.Rows.{Below, sub_rows};
ghost use Rattle.turboshake.specs.Stream.{drawn};
ghost use Rattle.sampler.specs.Sampler.{draw_limit, sampled, draws_rule};
ghost use Rattle.shares.specs.Shares.{seed_at, helper_stream, vf_joint_rand};

use turboshake::Sponge;

// The numbers of the aggregators.
pub const LEADER: u8 = 0;

pub const HELPER: u8 = 1;

// The places of the five seeds.
const MEAS_SHARE_SEED_1: usize = 0;

pub const WR_BLIND_1: usize = 1;

const VF_BLIND_1: usize = 2;

pub const WR_BLIND_0: usize = 3;

const VF_BLIND_0: usize = 4;

// One of the five seeds.
pub fn seed_at(seeds: &[u8], k: usize) -> [u8; 16]
    requires { (length seeds.now ≡ 80) × (k < 5) }
    ensures { result ≡ seed_at k seeds.now }
{
    let at = 16 * k;
    let end = at + 16;
    xof::seed_of(&seeds[at..end])
}

// The stream of the helper's share.
pub fn helper_stream(seeds: &[u8]) -> Sponge
    requires { length seeds.now ≡ 80 }
    ensures { ((n : ℕ) → drawn (8 * draw_limit n) result ≡ helper_stream n seeds.now) × (result.at < 168) }
{
    let number = [HELPER];
    xof::seed_stream(
        seed_at(seeds, MEAS_SHARE_SEED_1),
        xof::USAGE_MEAS_SHARE,
        &number,
    )
}

// The verification seed.
fn vf_seed(nonce: &[u8], seeds: &[u8], leader: &[u64], helper: &[u64]) -> [u8; 16]
    requires { length seeds.now ≡ 80 }
    ensures { result ≡ vf_joint_rand nonce.now seeds.now leader.now helper.now }
{
    let part_0 = joint_rand::joint_rand_part(
        xof::USAGE_VF_JOINT_RAND_PART,
        LEADER,
        seed_at(seeds, VF_BLIND_0),
        nonce,
        leader,
    );
    let part_1 = joint_rand::joint_rand_part(
        xof::USAGE_VF_JOINT_RAND_PART,
        HELPER,
        seed_at(seeds, VF_BLIND_1),
        nonce,
        helper,
    );
    joint_rand::joint_rand_seed(xof::USAGE_VF_JOINT_RAND_SEED, part_0, part_1)
}

// Writes the wraparound seed and the verification seed.
fn write_given(wr: [u8; 16], vf: [u8; 16], given: &mut [u8])
    requires { length given.old ≡ 32 }
    ensures { given.new ≡ wr ++ vf }
{
    given[..16].copy_from_slice(&wr);
    given[16..].copy_from_slice(&vf);
}

// Cuts the measurement in the leader's row.
pub fn cut_measurement(
    nonce: &[u8],
    seeds: &[u8],
    wr: [u8; 16],
    leader: &mut [u64],
    helper: &mut [u64],
    given: &mut [u8],
)
    requires seeds_len { (length seeds.now ≡ 80) × (length given.old ≡ 32) }
    requires below { Below p64 leader.old × ((length leader.old ≡ length helper.old) × (length helper.old ≤ 131072)) }
    requires seeds_value { draws_rule p64 (length helper.old) (helper_stream (length helper.old) seeds.now) ≡ accepted }
    ensures helper_after { helper.new ≡ sampled p64 (length helper.old) (helper_stream (length helper.old) seeds.now) }
    ensures leader_after { leader.new ≡ sub_rows p64 leader.old helper.new }
    ensures given_after { given.new ≡ wr ++ vf_joint_rand nonce.now seeds.now leader.new helper.new }
{
    let most = helper.len() + sampler::MORE_DRAWS as usize;
    sampler::draw_row(helper_stream(seeds), most, helper);
    rows::sub_rows(leader, helper);
    write_given(wr, vf_seed(nonce, seeds, leader, helper), given);
}
