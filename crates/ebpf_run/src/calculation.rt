//! What a step does with its two operands (RFC 9669, 4.1 to 4.3).

ghost use Rattle.std.specs.Prelude.{◌≡◌, ◌+◌};
ghost use Rattle.ebpf_code.specs.declared.operation.Arithmetic.TheVariants.{Divide, Modulo};
ghost use Rattle.ebpf_run.specs.Calculation.{low_half, calculated_64, calculated_32};
ghost use Rattle.ebpf_run.specs.Step.{effect_of};

use ebpf_code::{Code, LoadSize};

/// What a step does with its operands.
#[derive(Clone, Copy)]
pub enum Effect {
    /// It writes a number.
    Write(u64),
    /// It writes a number and takes two slots.
    WriteWide(u64),
    /// It jumps, or goes on at the next slot.
    Jump(bool),
    /// It loads from the frame, from an index on.
    Load(LoadSize, usize),
    /// It ends the program.
    End,
}

/// What a step of a code does with the numbers in its registers and its own number.
#[inline(always)]
pub fn effect_of(code: Code, x: u64, y: u64, n: u64) -> Effect
    ensures { result ≡ effect_of code x y n }
{
    match code {
        Code::AddImmediate64 => Effect::Write(x.wrapping_add(n)),
        Code::SubtractImmediate64 => Effect::Write(x.wrapping_sub(n)),
        Code::MultiplyImmediate64 => Effect::Write(x.wrapping_mul(n)),
        Code::DivideImmediate64 => Effect::Write(divided_64(x, n)),
        Code::OrImmediate64 => Effect::Write(x | n),
        Code::AndImmediate64 => Effect::Write(x & n),
        Code::ShiftLeftImmediate64 => Effect::Write(x << (n % 64)),
        Code::ShiftRightImmediate64 => Effect::Write(x >> (n % 64)),
        Code::ModuloImmediate64 => Effect::Write(rest_64(x, n)),
        Code::XorImmediate64 => Effect::Write(x ^ n),
        Code::MoveImmediate64 => Effect::Write(n),
        Code::ShiftRightSignedImmediate64 => Effect::Write(
            (x.cast_signed() >> (n % 64)).cast_unsigned(),
        ),
        Code::AddRegister64 => Effect::Write(x.wrapping_add(y)),
        Code::SubtractRegister64 => Effect::Write(x.wrapping_sub(y)),
        Code::MultiplyRegister64 => Effect::Write(x.wrapping_mul(y)),
        Code::DivideRegister64 => Effect::Write(divided_64(x, y)),
        Code::OrRegister64 => Effect::Write(x | y),
        Code::AndRegister64 => Effect::Write(x & y),
        Code::ShiftLeftRegister64 => Effect::Write(x << (y % 64)),
        Code::ShiftRightRegister64 => Effect::Write(x >> (y % 64)),
        Code::ModuloRegister64 => Effect::Write(rest_64(x, y)),
        Code::XorRegister64 => Effect::Write(x ^ y),
        Code::MoveRegister64 => Effect::Write(y),
        Code::ShiftRightSignedRegister64 => Effect::Write(
            (x.cast_signed() >> (y % 64)).cast_unsigned(),
        ),
        Code::AddImmediate32 => Effect::Write(u64::from(low_half(x).wrapping_add(low_half(n)))),
        Code::SubtractImmediate32 => Effect::Write(u64::from(low_half(x).wrapping_sub(low_half(
            n,
        )))),
        Code::MultiplyImmediate32 => Effect::Write(u64::from(low_half(x).wrapping_mul(low_half(
            n,
        )))),
        Code::DivideImmediate32 => Effect::Write(u64::from(divided_32(low_half(x), low_half(n)))),
        Code::OrImmediate32 => Effect::Write(u64::from(low_half(x) | low_half(n))),
        Code::AndImmediate32 => Effect::Write(u64::from(low_half(x) & low_half(n))),
        Code::ShiftLeftImmediate32 => Effect::Write(u64::from(low_half(x) << (low_half(n) % 32))),
        Code::ShiftRightImmediate32 => Effect::Write(u64::from(low_half(x) >> (low_half(n) % 32))),
        Code::ModuloImmediate32 => Effect::Write(u64::from(rest_32(low_half(x), low_half(n)))),
        Code::XorImmediate32 => Effect::Write(u64::from(low_half(x) ^ low_half(n))),
        Code::MoveImmediate32 => Effect::Write(u64::from(low_half(n))),
        Code::ShiftRightSignedImmediate32 => Effect::Write(u64::from(
            (low_half(x).cast_signed() >> (low_half(n) % 32)).cast_unsigned(),
        )),
        Code::AddRegister32 => Effect::Write(u64::from(low_half(x).wrapping_add(low_half(y)))),
        Code::SubtractRegister32 => Effect::Write(u64::from(low_half(x).wrapping_sub(low_half(y)))),
        Code::MultiplyRegister32 => Effect::Write(u64::from(low_half(x).wrapping_mul(low_half(y)))),
        Code::DivideRegister32 => Effect::Write(u64::from(divided_32(low_half(x), low_half(y)))),
        Code::OrRegister32 => Effect::Write(u64::from(low_half(x) | low_half(y))),
        Code::AndRegister32 => Effect::Write(u64::from(low_half(x) & low_half(y))),
        Code::ShiftLeftRegister32 => Effect::Write(u64::from(low_half(x) << (low_half(y) % 32))),
        Code::ShiftRightRegister32 => Effect::Write(u64::from(low_half(x) >> (low_half(y) % 32))),
        Code::ModuloRegister32 => Effect::Write(u64::from(rest_32(low_half(x), low_half(y)))),
        Code::XorRegister32 => Effect::Write(u64::from(low_half(x) ^ low_half(y))),
        Code::MoveRegister32 => Effect::Write(u64::from(low_half(y))),
        Code::ShiftRightSignedRegister32 => Effect::Write(u64::from(
            (low_half(x).cast_signed() >> (low_half(y) % 32)).cast_unsigned(),
        )),
        Code::Negate64 => Effect::Write(0u64.wrapping_sub(x)),
        Code::Negate32 => Effect::Write(u64::from(0u32.wrapping_sub(low_half(x)))),
        Code::Truncate16 => Effect::Write(x % 0x1_0000),
        Code::Truncate32 => Effect::Write(x % 0x1_0000_0000),
        Code::Truncate64 => Effect::Write(x),
        Code::Reverse16 => Effect::Write(u64::from(((x % 0x1_0000) as u16).swap_bytes())),
        Code::Reverse32 => Effect::Write(u64::from(low_half(x).swap_bytes())),
        Code::Reverse64 => Effect::Write(x.swap_bytes()),
        Code::LoadWide => Effect::WriteWide(n),
        Code::LoadWord => Effect::Load(LoadSize::Word, n as usize),
        Code::LoadHalf => Effect::Load(LoadSize::Half, n as usize),
        Code::LoadByte => Effect::Load(LoadSize::Byte, n as usize),
        Code::LoadWordIndirect => Effect::Load(LoadSize::Word, low_sum(n, y)),
        Code::LoadHalfIndirect => Effect::Load(LoadSize::Half, low_sum(n, y)),
        Code::LoadByteIndirect => Effect::Load(LoadSize::Byte, low_sum(n, y)),
        Code::JumpAlways => Effect::Jump(true),
        Code::JumpEqualImmediate64 => Effect::Jump(x == n),
        Code::JumpAboveImmediate64 => Effect::Jump(x > n),
        Code::JumpAboveOrEqualImmediate64 => Effect::Jump(x >= n),
        Code::JumpCommonBitsImmediate64 => Effect::Jump(x & n != 0),
        Code::JumpNotEqualImmediate64 => Effect::Jump(x != n),
        Code::JumpSignedAboveImmediate64 => Effect::Jump(x.cast_signed() > n.cast_signed()),
        Code::JumpSignedAboveOrEqualImmediate64 => Effect::Jump(x.cast_signed() >= n.cast_signed()),
        Code::JumpBelowImmediate64 => Effect::Jump(x < n),
        Code::JumpBelowOrEqualImmediate64 => Effect::Jump(x <= n),
        Code::JumpSignedBelowImmediate64 => Effect::Jump(x.cast_signed() < n.cast_signed()),
        Code::JumpSignedBelowOrEqualImmediate64 => Effect::Jump(x.cast_signed() <= n.cast_signed()),
        Code::JumpEqualRegister64 => Effect::Jump(x == y),
        Code::JumpAboveRegister64 => Effect::Jump(x > y),
        Code::JumpAboveOrEqualRegister64 => Effect::Jump(x >= y),
        Code::JumpCommonBitsRegister64 => Effect::Jump(x & y != 0),
        Code::JumpNotEqualRegister64 => Effect::Jump(x != y),
        Code::JumpSignedAboveRegister64 => Effect::Jump(x.cast_signed() > y.cast_signed()),
        Code::JumpSignedAboveOrEqualRegister64 => Effect::Jump(x.cast_signed() >= y.cast_signed()),
        Code::JumpBelowRegister64 => Effect::Jump(x < y),
        Code::JumpBelowOrEqualRegister64 => Effect::Jump(x <= y),
        Code::JumpSignedBelowRegister64 => Effect::Jump(x.cast_signed() < y.cast_signed()),
        Code::JumpSignedBelowOrEqualRegister64 => Effect::Jump(x.cast_signed() <= y.cast_signed()),
        Code::JumpEqualImmediate32 => Effect::Jump(low_half(x) == low_half(n)),
        Code::JumpAboveImmediate32 => Effect::Jump(low_half(x) > low_half(n)),
        Code::JumpAboveOrEqualImmediate32 => Effect::Jump(low_half(x) >= low_half(n)),
        Code::JumpCommonBitsImmediate32 => Effect::Jump(low_half(x) & low_half(n) != 0),
        Code::JumpNotEqualImmediate32 => Effect::Jump(low_half(x) != low_half(n)),
        Code::JumpSignedAboveImmediate32 => Effect::Jump(
            low_half(x).cast_signed() > low_half(n).cast_signed(),
        ),
        Code::JumpSignedAboveOrEqualImmediate32 => Effect::Jump(
            low_half(x).cast_signed() >= low_half(n).cast_signed(),
        ),
        Code::JumpBelowImmediate32 => Effect::Jump(low_half(x) < low_half(n)),
        Code::JumpBelowOrEqualImmediate32 => Effect::Jump(low_half(x) <= low_half(n)),
        Code::JumpSignedBelowImmediate32 => Effect::Jump(
            low_half(x).cast_signed() < low_half(n).cast_signed(),
        ),
        Code::JumpSignedBelowOrEqualImmediate32 => Effect::Jump(
            low_half(x).cast_signed() <= low_half(n).cast_signed(),
        ),
        Code::JumpEqualRegister32 => Effect::Jump(low_half(x) == low_half(y)),
        Code::JumpAboveRegister32 => Effect::Jump(low_half(x) > low_half(y)),
        Code::JumpAboveOrEqualRegister32 => Effect::Jump(low_half(x) >= low_half(y)),
        Code::JumpCommonBitsRegister32 => Effect::Jump(low_half(x) & low_half(y) != 0),
        Code::JumpNotEqualRegister32 => Effect::Jump(low_half(x) != low_half(y)),
        Code::JumpSignedAboveRegister32 => Effect::Jump(
            low_half(x).cast_signed() > low_half(y).cast_signed(),
        ),
        Code::JumpSignedAboveOrEqualRegister32 => Effect::Jump(
            low_half(x).cast_signed() >= low_half(y).cast_signed(),
        ),
        Code::JumpBelowRegister32 => Effect::Jump(low_half(x) < low_half(y)),
        Code::JumpBelowOrEqualRegister32 => Effect::Jump(low_half(x) <= low_half(y)),
        Code::JumpSignedBelowRegister32 => Effect::Jump(
            low_half(x).cast_signed() < low_half(y).cast_signed(),
        ),
        Code::JumpSignedBelowOrEqualRegister32 => Effect::Jump(
            low_half(x).cast_signed() <= low_half(y).cast_signed(),
        ),
        Code::End => Effect::End,
    }
}

/// The low half of a register.
pub fn low_half(x: u64) -> u32
    ensures { result ≡ low_half x }
{
    (x % 0x1_0000_0000) as u32
}

/// The low half of a sum of low halves.
fn low_sum(x: u64, y: u64) -> usize
    ensures { result ≡ low_half (low_half x + low_half y) }
{
    low_half(x).wrapping_add(low_half(y)) as usize
}

fn divided_64(x: u64, y: u64) -> u64
    ensures { result ≡ calculated_64 Divide x y }
{
    if y == 0 { 0 } else { x / y }
}

fn rest_64(x: u64, y: u64) -> u64
    ensures { result ≡ calculated_64 Modulo x y }
{
    if y == 0 { x } else { x % y }
}

fn divided_32(dividend: u32, divisor: u32) -> u32
    ensures { result ≡ calculated_32 Divide dividend divisor }
{
    if divisor == 0 { 0 } else { dividend / divisor }
}

fn rest_32(dividend: u32, divisor: u32) -> u32
    ensures { result ≡ calculated_32 Modulo dividend divisor }
{
    if divisor == 0 {
        dividend
    } else {
        dividend % divisor
    }
}
