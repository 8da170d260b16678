//! Values of elements, as a script writes them.
ghost use Rattle.std.specs.Prelude.{◌≡◌, IfSome, pos};
ghost use Rattle.script.specs.declared.command.Value.{Value};
ghost use Rattle.script.specs.declared.command.Value.TheVariants.{Number, Head};

use byte_valued::{ByteValued, LineHead};
use script::Value;

/// A kind of element that a script's values can be of.
pub(crate) trait Element: ByteValued {
    // The value that an element is.
    ghost value_of: { Self → Value };

    /// The element that a value is, if it fits.
    fn of_value(value: Value) -> Option<Self>
        ensures { IfSome result (λ element. value_of element ≡ value) };

    /// The element as a value.
    fn to_value(self) -> Value
        ensures { result ≡ value_of self };
}

// An impl for each: no bound of std turns all nine into an i128, and the gate takes no impls by macros of one's own.
impl Element for u8 {
    ghost value_of = { λ n. Number (pos n) };

    fn of_value(value: Value) -> Option<u8> {
        u8::try_from(value.number()?).ok()
    }

    fn to_value(self) -> Value {
        Value::Number(i128::from(self))
    }
}

impl Element for u16 {
    ghost value_of = { λ n. Number (pos n) };

    fn of_value(value: Value) -> Option<u16> {
        u16::try_from(value.number()?).ok()
    }

    fn to_value(self) -> Value {
        Value::Number(i128::from(self))
    }
}

impl Element for u32 {
    ghost value_of = { λ n. Number (pos n) };

    fn of_value(value: Value) -> Option<u32> {
        u32::try_from(value.number()?).ok()
    }

    fn to_value(self) -> Value {
        Value::Number(i128::from(self))
    }
}

impl Element for u64 {
    ghost value_of = { λ n. Number (pos n) };

    fn of_value(value: Value) -> Option<u64> {
        u64::try_from(value.number()?).ok()
    }

    fn to_value(self) -> Value {
        Value::Number(i128::from(self))
    }
}

impl Element for usize {
    ghost value_of = { λ n. Number (pos n) };

    fn of_value(value: Value) -> Option<usize> {
        usize::try_from(value.number()?).ok()
    }

    fn to_value(self) -> Value {
        Value::Number(self as i128)
    }
}

impl Element for i8 {
    ghost value_of = { λ n. Number n };

    fn of_value(value: Value) -> Option<i8> {
        i8::try_from(value.number()?).ok()
    }

    fn to_value(self) -> Value {
        Value::Number(i128::from(self))
    }
}

impl Element for i16 {
    ghost value_of = { λ n. Number n };

    fn of_value(value: Value) -> Option<i16> {
        i16::try_from(value.number()?).ok()
    }

    fn to_value(self) -> Value {
        Value::Number(i128::from(self))
    }
}

impl Element for i32 {
    ghost value_of = { λ n. Number n };

    fn of_value(value: Value) -> Option<i32> {
        i32::try_from(value.number()?).ok()
    }

    fn to_value(self) -> Value {
        Value::Number(i128::from(self))
    }
}

impl Element for i64 {
    ghost value_of = { λ n. Number n };

    fn of_value(value: Value) -> Option<i64> {
        i64::try_from(value.number()?).ok()
    }

    fn to_value(self) -> Value {
        Value::Number(i128::from(self))
    }
}

impl Element for LineHead {
    ghost value_of = { Head };

    fn of_value(value: Value) -> Option<LineHead> {
        value.head()
    }

    fn to_value(self) -> Value {
        Value::Head(self)
    }
}
