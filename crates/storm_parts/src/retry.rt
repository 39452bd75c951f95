//! Calls that are made again.
ghost use Rattle.std.specs.Prelude.{◌≡◌, ◌↔◌, IfErr, IfOk, IsOk, Ok};

use crate::call::Call;
use crate::difference::{Difference, How, expect};

/// Makes a call that changes nothing, and makes it again where it is refused with `no_memory`. The result is that of a call.
pub fn again<T, E: Copy + PartialEq, F: Fn() -> Result<T, E>>(
    call: Call,
    no_memory: E,
    make: F,
) -> Result<T, Difference>
    requires { F.IsAlwaysCallable make }
    ensures made { IfOk result (λ made. F.post make (Ok made)) }
    ensures call { IfErr result (λ difference. difference.call ≡ call) }
{
    match make() {
        Ok(made) => Ok(made),
        Err(fault) => {
            expect(fault == no_memory, call, How::Fails)?;
            expect_ok(call, make())
        }
    }
}

/// What a call returns that has to succeed, since memory isn't refused, or not again.
pub fn expect_ok<T, E: Drop>(call: Call, answer: Result<T, E>) -> Result<T, Difference>
    ensures made { IfOk result (λ made. answer ≡ Ok made) }
    ensures only { IsOk result ↔ IsOk answer }
    ensures call { IfErr result (λ difference. difference.call ≡ call) }
{
    match answer {
        Ok(made) => Ok(made),
        Err(_) => Err(Difference::new(call, How::NoAnswer)),
    }
}
