// The prediction of an 8 by 8 block from a plane of a reference picture, at coordinates in half pels.
ghost use Rattle.std.specs.Prelude.{◌≡◌, ◌+◌, ◌*◌, ◌/◌, ◌%◌, ◌≤◌, ◌<◌, length};
ghost use Rattle.decode_prediction.specs.Prediction.{mean_of, predicted_pel, prediction, copied_pels, mean_of_both};

// The mean of four pels, with halves rounded up.
fn mean_of_four(a: u8, b: u8, c: u8, d: u8) -> u8
    ensures { result ≡ mean_of 4 (a + b + c + d) }
{
    ((u32::from(a) + u32::from(b) + u32::from(c) + u32::from(d) + 2) / 4) as u8
}

// The mean of two pels, with halves rounded up.
fn mean_of_two(a: u8, b: u8) -> u8
    ensures { result ≡ mean_of 2 (a + b) }
{
    ((u32::from(a) + u32::from(b) + 1) / 2) as u8
}

// Pel k of the block at (px, py): the mean of two pels if one of px and py is odd, of four if both are.
// One SIMD loop serves either odd coordinate.
fn predict_pel(plane: &[u8], stride: usize, lines: usize, px: usize, py: usize, k: usize) -> u8
    requires { (px + 16 ≤ 2 * stride) × (py + 16 ≤ 2 * lines) × (lines * stride ≤ length plane.now) × (k < 64) }
    ensures { result ≡ predicted_pel plane.now stride px py k }
{
    let x = px / 2 + k % 8;
    let y = py / 2 + k / 8;
    let at = y * stride + x;
    let pel = plane[at];
    let odd = px % 2 + py % 2;
    if odd == 0 {
        return pel;
    }
    let right = px % 2;
    let below = py % 2 * stride;
    if odd == 1 {
        return mean_of_two(pel, plane[at + below + right]);
    }
    mean_of_four(
        pel,
        plane[at + right],
        plane[at + below],
        plane[at + below + right],
    )
}

// The prediction of the block at (px, py), in half pels, from a plane with `lines` lines of `stride` pels.
pub fn predict_block(plane: &[u8], stride: usize, lines: usize, px: usize, py: usize) -> [u8; 64]
    requires { (px + 16 ≤ 2 * stride) × (py + 16 ≤ 2 * lines) × (lines * stride ≤ length plane.now) }
    ensures { result ≡ prediction plane.now stride px py }
{
    let mut block = [0u8; 64];
    for j in 0..8 {
        for i in 0..8 {
            let k = 8 * j + i;
            block[k] = predict_pel(plane, stride, lines, px, py, k);
        }
    }
    block
}

// The SIDE by SIDE pels at (px, py), in half pels: a plain copy from the whole pels there, no averaging.
// The inner loop compiles to a load of eight or sixteen bytes; `copy_from_slice` takes more than twice the time.
pub fn copy_pels<const SIDE: usize, const PELS: usize>(
    plane: &[u8],
    stride: usize,
    lines: usize,
    px: usize,
    py: usize,
) -> [u8; PELS]
    requires sides { (SIDE * SIDE ≡ PELS) × (SIDE ≤ 16) }
    requires inside { (px + 2 * SIDE ≤ 2 * stride) × (py + 2 * SIDE ≤ 2 * lines) × (lines * stride ≤ length plane.now) }
    ensures { result ≡ copied_pels SIDE plane.now stride px py }
{
    let mut pels = [0u8; PELS];
    for j in 0..SIDE {
        for i in 0..SIDE {
            pels[j * SIDE + i] = plane[(py / 2 + j) * stride + px / 2 + i];
        }
    }
    pels
}

// The mean of the forward and the backward prediction.
pub fn mean_of_both(forward: [u8; 64], backward: [u8; 64]) -> [u8; 64]
    ensures { result ≡ mean_of_both forward backward }
{
    let mut block = [0u8; 64];
    for k in 0..64 {
        block[k] = mean_of_two(forward[k], backward[k]);
    }
    block
}
