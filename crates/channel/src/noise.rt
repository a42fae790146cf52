// How strong the noise is.
ghost use Rattle.std.specs.Prelude.{◌≡◌};
ghost use Rattle.channel.specs.Airs.{noise_at};

use std::f64::consts::FRAC_1_SQRT_2;

// The ratio of two amplitudes that are one decibel apart.
const DECIBEL: f64 = 0.8912509381337456;

// The deviation of the noise in each direction of the plane, where a symbol of amplitude 1 has
// so many decibels more power than the noise.
pub(crate) fn noise_amplitude(decibels: i8) -> f64
    ensures { result ≡ noise_at decibels }
{
    let steps = 0..decibels.unsigned_abs();
    if decibels < 0 {
        steps.fold(FRAC_1_SQRT_2, |amplitude, _| amplitude / DECIBEL)
    } else {
        steps.fold(FRAC_1_SQRT_2, |amplitude, _| amplitude * DECIBEL)
    }
}
