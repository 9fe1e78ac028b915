// The numbers that are drawn for a generated script: a linear congruential generator modulo 2^64,
// whose upper bits are given. Its states are known without those before them, since so many steps
// are one multiplication and one addition too.
ghost use Rattle.std.specs.Prelude.{◌≡◌, ◌+◌, ◌*◌, ◌%◌, ◌^◌, ◌<◌};
ghost use Rattle.std.specs.Fn.{iterate};
ghost use Rattle.rss_model.specs.Generator.{next_state, drawn, state_before};
ghost use Rattle.rss_line.specs.Draws.{moved};

/// Moves a state on by one multiplication and one addition, modulo 2^64.
#[derive(Clone, Copy)]
struct Step {
    factor: u64,
    addend: u64,
}

/// One draw.
const DRAW: Step = Step {
    factor: 6_364_136_223_846_793_005,
    addend: 1_442_695_040_888_963_407,
};

impl Step {
    fn moved(&self, state: u64) -> u64
        ensures { result ≡ moved self.now.factor self.now.addend state }
    {
        state.wrapping_mul(self.factor).wrapping_add(self.addend)
    }

    /// This step, two times.
    fn doubled(&self) -> Step
        ensures factor { result.factor ≡ self.now.factor * self.now.factor % 2 ^ 64 }
        ensures addend { result.addend ≡ moved self.now.factor self.now.addend self.now.addend }
    {
        Step {
            factor: self.factor.wrapping_mul(self.factor),
            addend: self.moved(self.addend),
        }
    }
}

/// The state after a draw.
pub fn next_state(state: u64) -> u64
    ensures { result ≡ next_state state }
{
    DRAW.moved(state)
}

/// What a draw gives that moved on to this state.
pub fn drawn(limit: u64, state: u64) -> u64
    requires { 0 < limit }
    ensures { result ≡ drawn limit state }
{
    (state >> 33) % limit
}

/// The state after so many draws.
fn state_after(state: u64, draws: u64) -> u64
    ensures { result ≡ iterate next_state draws state }
{
    let mut state = state;
    let mut step = DRAW;
    let mut left = draws;
    'halves: while left > 0 {
        if left % 2 == 1 {
            state = step.moved(state);
        }
        step = step.doubled();
        left /= 2;
    }
    state
}

/// The state before the draws of an employee: two were made for each before it, and a third for
/// each eighth.
pub fn state_before(number: u64, employee: u32) -> u64
    ensures { result ≡ state_before number employee }
{
    let employee = u64::from(employee);
    state_after(number, 2 * employee + employee.div_ceil(8))
}
