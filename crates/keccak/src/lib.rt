// Keccak-p[1600, 12], the permutation of TurboSHAKE128, on 25 lanes: lane A[x, y] stands at x + 5 y.
#![tactic(auto)]

ghost use Rattle.std.specs.Prelude.{◌≡◌};
ghost use Rattle.keccak.specs.Keccak.{keccak_p};
ghost use Rattle.keccak.specs.Halves.{first_half, second_half};

// The constants of the twelve rounds.
const ROUND_CONSTANTS: [u64; 12] = [
    0x0000_0000_8000_808b,
    0x8000_0000_0000_008b,
    0x8000_0000_0000_8089,
    0x8000_0000_0000_8003,
    0x8000_0000_0000_8002,
    0x8000_0000_0000_0080,
    0x0000_0000_0000_800a,
    0x8000_0000_8000_000a,
    0x8000_0000_8000_8081,
    0x8000_0000_0000_8080,
    0x0000_0000_8000_0001,
    0x8000_0000_8000_8008,
];

// A round is in two halves, each small enough that LLVM puts it in its place at every call. It goes plane by plane of what
// comes out, so that few lanes are held at a time. The names have their x, then their y.

// The first half: what theta adds to each column, then the planes y = 0 and 1 of what comes out.
fn begin_round(a: [u64; 25], rc: u64) -> [u64; 15]
    ensures { result ≡ first_half rc a }
{
    // theta
    let c0 = a[0] ^ a[5] ^ a[10] ^ a[15] ^ a[20];
    let c1 = a[1] ^ a[6] ^ a[11] ^ a[16] ^ a[21];
    let c2 = a[2] ^ a[7] ^ a[12] ^ a[17] ^ a[22];
    let c3 = a[3] ^ a[8] ^ a[13] ^ a[18] ^ a[23];
    let c4 = a[4] ^ a[9] ^ a[14] ^ a[19] ^ a[24];
    let d0 = c4 ^ ((c1 << 1) | (c1 >> 63));
    let d1 = c0 ^ ((c2 << 1) | (c2 >> 63));
    let d2 = c1 ^ ((c3 << 1) | (c3 >> 63));
    let d3 = c2 ^ ((c4 << 1) | (c4 >> 63));
    let d4 = c3 ^ ((c0 << 1) | (c0 >> 63));
    // rho and pi, then chi, for the plane y = 0
    let b00 = a[0] ^ d0;
    let t10 = a[6] ^ d1;
    let b10 = (t10 << 44) | (t10 >> 20);
    let t20 = a[12] ^ d2;
    let b20 = (t20 << 43) | (t20 >> 21);
    let t30 = a[18] ^ d3;
    let b30 = (t30 << 21) | (t30 >> 43);
    let t40 = a[24] ^ d4;
    let b40 = (t40 << 14) | (t40 >> 50);
    let e00 = b00 ^ (!b10 & b20) ^ rc;
    let e10 = b10 ^ (!b20 & b30);
    let e20 = b20 ^ (!b30 & b40);
    let e30 = b30 ^ (!b40 & b00);
    let e40 = b40 ^ (!b00 & b10);
    // rho and pi, then chi, for the plane y = 1
    let t01 = a[3] ^ d3;
    let b01 = (t01 << 28) | (t01 >> 36);
    let t11 = a[9] ^ d4;
    let b11 = (t11 << 20) | (t11 >> 44);
    let t21 = a[10] ^ d0;
    let b21 = (t21 << 3) | (t21 >> 61);
    let t31 = a[16] ^ d1;
    let b31 = (t31 << 45) | (t31 >> 19);
    let t41 = a[22] ^ d2;
    let b41 = (t41 << 61) | (t41 >> 3);
    let e01 = b01 ^ (!b11 & b21);
    let e11 = b11 ^ (!b21 & b31);
    let e21 = b21 ^ (!b31 & b41);
    let e31 = b31 ^ (!b41 & b01);
    let e41 = b41 ^ (!b01 & b11);
    [
        d0, d1, d2, d3, d4, e00, e10, e20, e30, e40, e01, e11, e21, e31, e41,
    ]
}

// The second half: these two planes, then the other three.
fn end_round(a: [u64; 25], begun: [u64; 15]) -> [u64; 25]
    ensures { result ≡ second_half a begun }
{
    let d0 = begun[0];
    let d1 = begun[1];
    let d2 = begun[2];
    let d3 = begun[3];
    let d4 = begun[4];
    // rho and pi, then chi, for the plane y = 2
    let t02 = a[1] ^ d1;
    let b02 = (t02 << 1) | (t02 >> 63);
    let t12 = a[7] ^ d2;
    let b12 = (t12 << 6) | (t12 >> 58);
    let t22 = a[13] ^ d3;
    let b22 = (t22 << 25) | (t22 >> 39);
    let t32 = a[19] ^ d4;
    let b32 = (t32 << 8) | (t32 >> 56);
    let t42 = a[20] ^ d0;
    let b42 = (t42 << 18) | (t42 >> 46);
    let e02 = b02 ^ (!b12 & b22);
    let e12 = b12 ^ (!b22 & b32);
    let e22 = b22 ^ (!b32 & b42);
    let e32 = b32 ^ (!b42 & b02);
    let e42 = b42 ^ (!b02 & b12);
    // rho and pi, then chi, for the plane y = 3
    let t03 = a[4] ^ d4;
    let b03 = (t03 << 27) | (t03 >> 37);
    let t13 = a[5] ^ d0;
    let b13 = (t13 << 36) | (t13 >> 28);
    let t23 = a[11] ^ d1;
    let b23 = (t23 << 10) | (t23 >> 54);
    let t33 = a[17] ^ d2;
    let b33 = (t33 << 15) | (t33 >> 49);
    let t43 = a[23] ^ d3;
    let b43 = (t43 << 56) | (t43 >> 8);
    let e03 = b03 ^ (!b13 & b23);
    let e13 = b13 ^ (!b23 & b33);
    let e23 = b23 ^ (!b33 & b43);
    let e33 = b33 ^ (!b43 & b03);
    let e43 = b43 ^ (!b03 & b13);
    // rho and pi, then chi, for the plane y = 4
    let t04 = a[2] ^ d2;
    let b04 = (t04 << 62) | (t04 >> 2);
    let t14 = a[8] ^ d3;
    let b14 = (t14 << 55) | (t14 >> 9);
    let t24 = a[14] ^ d4;
    let b24 = (t24 << 39) | (t24 >> 25);
    let t34 = a[15] ^ d0;
    let b34 = (t34 << 41) | (t34 >> 23);
    let t44 = a[21] ^ d1;
    let b44 = (t44 << 2) | (t44 >> 62);
    let e04 = b04 ^ (!b14 & b24);
    let e14 = b14 ^ (!b24 & b34);
    let e24 = b24 ^ (!b34 & b44);
    let e34 = b34 ^ (!b44 & b04);
    let e44 = b44 ^ (!b04 & b14);
    [
        begun[5], begun[6], begun[7], begun[8], begun[9], begun[10], begun[11], begun[12],
        begun[13], begun[14], e02, e12, e22, e32, e42, e03, e13, e23, e33, e43, e04, e14, e24, e34,
        e44,
    ]
}

// The permutation, in place: its twelve rounds one after the other.
pub fn permute(lanes: &mut [u64; 25])
    ensures { lanes.new ≡ keccak_p lanes.old }
{
    let rc = ROUND_CONSTANTS;
    let s0 = *lanes;
    let s1 = end_round(s0, begin_round(s0, rc[0]));
    let s2 = end_round(s1, begin_round(s1, rc[1]));
    let s3 = end_round(s2, begin_round(s2, rc[2]));
    let s4 = end_round(s3, begin_round(s3, rc[3]));
    let s5 = end_round(s4, begin_round(s4, rc[4]));
    let s6 = end_round(s5, begin_round(s5, rc[5]));
    let s7 = end_round(s6, begin_round(s6, rc[6]));
    let s8 = end_round(s7, begin_round(s7, rc[7]));
    let s9 = end_round(s8, begin_round(s8, rc[8]));
    let s10 = end_round(s9, begin_round(s9, rc[9]));
    let s11 = end_round(s10, begin_round(s10, rc[10]));
    let s12 = end_round(s11, begin_round(s11, rc[11]));
    *lanes = s12;
}
