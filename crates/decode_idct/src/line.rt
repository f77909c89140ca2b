// The transform of a line of eight, from its even and odd halves.
ghost use Rattle.std.specs.Prelude.{◌≡◌, ◌<◌, ◌^◌};
ghost use Rattle.math.specs.Tab.{tab};
ghost use Rattle.math.specs.Bound.{AllWithin};
ghost use Rattle.decode_idct.specs.Line.{line_sum, half_sum};

use tables::COSINES;

// The factors of the even and of the odd frequencies at output indices 0 to 3.
const EVEN: [[i64; 4]; 4] = [
    [COSINES[3], COSINES[1], COSINES[3], COSINES[5]],
    [COSINES[3], COSINES[5], -COSINES[3], -COSINES[1]],
    [COSINES[3], -COSINES[5], -COSINES[3], COSINES[1]],
    [COSINES[3], -COSINES[1], COSINES[3], -COSINES[5]],
];

const ODD: [[i64; 4]; 4] = [
    [COSINES[0], COSINES[2], COSINES[4], COSINES[6]],
    [COSINES[2], -COSINES[6], -COSINES[0], -COSINES[4]],
    [COSINES[4], -COSINES[0], COSINES[6], COSINES[2]],
    [COSINES[6], -COSINES[4], COSINES[2], -COSINES[0]],
];

// The sum of four products that one half gives: the even frequencies (first 0) or the odd ones (first 1).
fn half_line(factors: [i64; 4], x: [i64; 8], first: usize) -> i64
    requires { AllWithin (2 ^ 20) factors × AllWithin (2 ^ 34) x × (first < 2) }
    ensures { result ≡ half_sum factors x first }
{
    let mut sum: i64 = 0;
    for j in 0..4 {
        sum += factors[j] * x[first + 2 * j];
    }
    sum
}

// At output indices p and 7 - p the even half is the same, and the odd half changes its sign. Written out: a loop over p takes more time.
pub(crate) fn transform_line(x: [i64; 8]) -> [i64; 8]
    requires { AllWithin (2 ^ 34) x }
    ensures { result ≡ tab 8 (line_sum x 0) }
{
    let e0 = half_line(EVEN[0], x, 0);
    let e1 = half_line(EVEN[1], x, 0);
    let e2 = half_line(EVEN[2], x, 0);
    let e3 = half_line(EVEN[3], x, 0);
    let o0 = half_line(ODD[0], x, 1);
    let o1 = half_line(ODD[1], x, 1);
    let o2 = half_line(ODD[2], x, 1);
    let o3 = half_line(ODD[3], x, 1);
    [
        e0 + o0,
        e1 + o1,
        e2 + o2,
        e3 + o3,
        e3 - o3,
        e2 - o2,
        e1 - o1,
        e0 - o0,
    ]
}
