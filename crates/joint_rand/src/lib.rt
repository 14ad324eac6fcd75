// Joint randomness (`joint_rand_part` and `joint_rand_seed` of pine/vdaf.rs of the Rust). A server has its own part from its
// share by the first, and the corrected seed from both parts by the second. `begin_part` and `into_seed` are internal: they
// are for shares that are not in a row.
#![tactic(auto)]

ghost use Rattle.std.specs.Prelude.{◌≡◌, [], ◌<◌};
ghost use Rattle.turboshake.specs.Stream.{absorb_all, start, finished, drawn};
ghost use Rattle.joint_rand.specs.JointRand.{part_message, joint_rand_part, joint_rand_seed};

use turboshake::Sponge;

// The state before a share's elements.
pub fn begin_part(usage: u16, agg_id: u8, blind: [u8; 16], nonce: &[u8]) -> Sponge
    ensures { (result ≡ absorb_all (part_message usage agg_id blind nonce.now []) start) × (result.at < 168) }
{
    let number = [agg_id];
    xof::init(blind, usage).absorb(&number).absorb(nonce)
}

// The seed, when the binder is whole.
pub fn into_seed(sponge: Sponge) -> [u8; 16]
    requires { sponge.at < 168 }
    ensures { result ≡ drawn 16 (finished 1 sponge) }
{
    let mut seed = [0u8; 16];
    xof::into_seed_stream(sponge).fill(&mut seed);
    seed
}

// An aggregator's part, from its share: 0 is the leader's number, 1 the helper's.
pub fn joint_rand_part(
    usage: u16,
    agg_id: u8,
    blind: [u8; 16],
    nonce: &[u8],
    meas_share: &[u64],
) -> [u8; 16]
    ensures { result ≡ joint_rand_part usage agg_id blind nonce.now meas_share.now }
{
    into_seed(begin_part(usage, agg_id, blind, nonce).absorb_words(meas_share))
}

// The seed, from the leader's part and the helper's.
pub fn joint_rand_seed(usage: u16, leader: [u8; 16], helper: [u8; 16]) -> [u8; 16]
    ensures { result ≡ joint_rand_seed usage leader helper }
{
    into_seed(xof::init([0; 16], usage).absorb(&leader).absorb(&helper))
}
