// Powers of the number of children: how many elements a level has, and how many smallest cells an element holds.
ghost use Rattle.std.specs.Prelude.{◌≡◌, ◌*◌, ◌^◌, ◌≤◌};

// By a shift, or of eight children from a table, which takes less time.
pub(crate) fn of_children(bits: u8, times: u8) -> u64
    requires { bits * times ≤ 63 }
    ensures { result ≡ (2 ^ bits) ^ times }
{
    if bits != 3 {
        return 1u64 << (bits * times);
    }
    match times {
        0 => 1,
        1 => 8,
        2 => 64,
        3 => 512,
        4 => 4096,
        5 => 32768,
        6 => 262144,
        7 => 2097152,
        8 => 16777216,
        9 => 134217728,
        10 => 1073741824,
        11 => 8589934592,
        12 => 68719476736,
        13 => 549755813888,
        14 => 4398046511104,
        15 => 35184372088832,
        16 => 281474976710656,
        17 => 2251799813685248,
        18 => 18014398509481984,
        19 => 144115188075855872,
        20 => 1152921504606846976,
        21 => 9223372036854775808,
        _ => unreachable!(),
    }
}
