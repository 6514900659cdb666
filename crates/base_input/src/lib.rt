// Bases and inputs, of which a correctness type is made: the first part of a port of miniscript 13.2.0's
// src/miniscript/types/correctness.rs. Each two-input table is a function of its own.
#![tactic(auto)]

ghost use Rattle.std.specs.Prelude.{◌≡◌, eqb};
ghost use Rattle.tables.specs.Choose.{pick};
ghost use Rattle.base_input.specs.Numbers.{base_number, base_of, input_number, input_of};
ghost use Rattle.base_input.specs.Tests.{is_b, is_k, is_v, is_w, equal_bkv, is_zero, takes_one, top_non_zero};
ghost use Rattle.base_input.specs.Inputs.{and_input, count_only, or_else_input, or_input, either_input, and_or_input, is_subtype_input};

// Where a fragment can go.
#[derive(Clone, Copy, Debug, PartialEq, Eq)]
pub enum Base {
    // Takes its inputs from the top of the stack; leaves nonzero if satisfied, else 0.
    B,
    // Takes its inputs from the top of the stack; leaves a key.
    K,
    // Takes its inputs from the top of the stack; leaves nothing, and aborts unless satisfied.
    V,
    // Works under the top item of the stack.
    W,
}

// How many stack items a fragment takes, and what is known of the top one.
#[derive(Clone, Copy, Debug, PartialEq, Eq)]
pub enum Input {
    Zero,
    One,
    Any,
    // Exactly one; nonzero where the fragment is satisfied.
    OneNonZero,
    // One or more; the top one nonzero where the fragment is satisfied.
    AnyNonZero,
}

impl Base {
    // 01's number.
    pub fn number(self) -> u32
        ensures { result ≡ base_number self }
    {
        match self {
            Base::B => 1,
            Base::K => 2,
            Base::V => 3,
            Base::W => 4,
        }
    }

    // The base of a number that `number` gave; any other is read as W.
    #[tactic(auto, unfolding(crate::specs::Numbers::base_of))]
    pub fn of_number(n: u32) -> Base
        ensures { result ≡ base_of n }
    {
        match n {
            1 => Base::B,
            2 => Base::K,
            3 => Base::V,
            _ => Base::W,
        }
    }

    pub fn is_b(self) -> bool
        ensures { result ≡ is_b self }
    {
        matches!(self, Base::B)
    }

    pub fn is_k(self) -> bool
        ensures { result ≡ is_k self }
    {
        matches!(self, Base::K)
    }

    pub fn is_v(self) -> bool
        ensures { result ≡ is_v self }
    {
        matches!(self, Base::V)
    }

    pub fn is_w(self) -> bool
        ensures { result ≡ is_w self }
    {
        matches!(self, Base::W)
    }

    // A threshold's first child is a B, each other a W.
    pub fn fits_threshold(self, i: u32) -> bool
        ensures { result ≡ pick (eqb i 0) (is_b self) (is_w self) }
    {
        if i == 0 {
            return self.is_b();
        }
        self.is_w()
    }

    // Two equal of B, K, V.
    pub fn equal_bkv(self, other: Base) -> bool
        ensures { result ≡ equal_bkv self other }
    {
        match self {
            Base::B => other.is_b(),
            Base::K => other.is_k(),
            Base::V => other.is_v(),
            Base::W => false,
        }
    }
}

impl Input {
    // 01's number.
    pub fn number(self) -> u32
        ensures { result ≡ input_number self }
    {
        match self {
            Input::Zero => 1,
            Input::One => 2,
            Input::Any => 3,
            Input::OneNonZero => 4,
            Input::AnyNonZero => 5,
        }
    }

    // The input of a number that `number` gave; any other is read as AnyNonZero.
    #[tactic(auto, unfolding(crate::specs::Numbers::input_of))]
    pub fn of_number(n: u32) -> Input
        ensures { result ≡ input_of n }
    {
        match n {
            1 => Input::Zero,
            2 => Input::One,
            3 => Input::Any,
            4 => Input::OneNonZero,
            _ => Input::AnyNonZero,
        }
    }

    pub fn is_zero(self) -> bool
        ensures { result ≡ is_zero self }
    {
        matches!(self, Input::Zero)
    }

    pub fn takes_one(self) -> bool
        ensures { result ≡ takes_one self }
    {
        matches!(self, Input::One | Input::OneNonZero)
    }

    pub fn top_nonzero(self) -> bool
        ensures { result ≡ top_non_zero self }
    {
        matches!(self, Input::OneNonZero | Input::AnyNonZero)
    }

    // The input of and_b and and_v.
    pub fn and(self, right: Input) -> Input
        ensures { result ≡ and_input self right }
    {
        match self {
            Input::Zero => right,
            Input::One => match right {
                Input::Zero => Input::One,
                _ => Input::Any,
            },
            Input::Any => Input::Any,
            Input::OneNonZero => match right {
                Input::Zero => Input::OneNonZero,
                _ => Input::AnyNonZero,
            },
            Input::AnyNonZero => Input::AnyNonZero,
        }
    }

    // How many items are taken, whatever the top one is.
    pub fn count_only(self) -> Input
        ensures { result ≡ count_only self }
    {
        match self {
            Input::Zero => Input::Zero,
            Input::One | Input::OneNonZero => Input::One,
            Input::Any | Input::AnyNonZero => Input::Any,
        }
    }

    // The input of or_d and or_c.
    pub fn or_else(self, right: Input) -> Input
        ensures { result ≡ or_else_input self right }
    {
        match right {
            Input::Zero => self.count_only(),
            _ => Input::Any,
        }
    }

    // The input of or_b; a threshold's, child by child.
    pub fn or(self, right: Input) -> Input
        ensures { result ≡ or_input self right }
    {
        match self {
            Input::Zero => right.count_only(),
            _ => self.or_else(right),
        }
    }

    // The input of or_i.
    pub fn either(self, right: Input) -> Input
        ensures { result ≡ either_input self right }
    {
        if self.is_zero() && right.is_zero() {
            return Input::One;
        }
        Input::Any
    }

    // The input of and_or, from its second and third child.
    pub fn and_or(self, second: Input, third: Input) -> Input
        ensures { result ≡ and_or_input self second third }
    {
        if second.is_zero() && third.is_zero() {
            return self.count_only();
        }
        if self.is_zero() && second.takes_one() && third.takes_one() {
            return Input::One;
        }
        Input::Any
    }

    // Whether this input has whatever `other` has.
    #[tactic(auto, unfolding(crate::specs::Inputs::is_subtype_input))]
    pub fn is_subtype(self, other: Input) -> bool
        ensures { result ≡ is_subtype_input self other }
    {
        self == other || other == Input::Any || (self == Input::OneNonZero && other != Input::Zero)
    }
}
