// The correctness types: a port of miniscript 13.2.0's src/miniscript/types/correctness.rs. Each rule is one short
// function, its checks in that file's order. A rule's contract is one equation with its definition in specs/Rules.
#![tactic(auto)]

ghost use Rattle.std.specs.Prelude.{◌≡◌};
ghost use Rattle.correctness.specs.Reasons.{reason_of};
ghost use Rattle.correctness.specs.Rules.{leaf_type, no_children, cast_alt, cast_swap, cast_check, cast_dupif, cast_verify, cast_nonzero, cast_zeronotequal, cast_true, cast_or_i_false, and_b, and_v, or_b, or_d, or_c, or_i, and_or, threshold_child, is_subtype};

pub use base_input::{Base, Input};

#[derive(Clone, Copy, Debug, PartialEq, Eq)]
pub struct Correctness {
    pub base: Base,
    pub input: Input,
    // Whether it can surely be dissatisfied.
    pub dissatisfiable: bool,
    // Whether it leaves exactly 1 where it is satisfied.
    pub unit: bool,
}

// Why a rule refuses. The crate's names and order.
#[derive(Clone, Copy, Debug, PartialEq, Eq)]
pub enum ErrorKind {
    NonZeroDupIf,
    LeftNotDissatisfiable,
    RightNotDissatisfiable,
    SwapNonOne,
    NonZeroZero,
    LeftNotUnit,
    ChildBase1,
    ChildBase2,
    ChildBase3,
    ThresholdBase,
    ThresholdDissat,
    ThresholdNonUnit,
}

// The leaves, by what type they have: after and older are Time, the four hashes Hash.
#[derive(Clone, Copy, Debug, PartialEq, Eq)]
pub enum Leaf {
    True,
    False,
    PkK,
    RawPkH,
    Time,
    Hash,
    Multi,
    MultiA,
}

impl ErrorKind {
    // 01's reason.
    pub fn reason(self) -> u32
        ensures { result ≡ reason_of self }
    {
        match self {
            ErrorKind::ChildBase1 => 1,
            ErrorKind::ChildBase2 => 2,
            ErrorKind::SwapNonOne => 3,
            ErrorKind::NonZeroDupIf => 4,
            ErrorKind::NonZeroZero => 5,
            ErrorKind::LeftNotDissatisfiable => 6,
            ErrorKind::RightNotDissatisfiable => 7,
            ErrorKind::LeftNotUnit => 8,
            ErrorKind::ThresholdBase => 9,
            ErrorKind::ThresholdNonUnit => 10,
            ErrorKind::ThresholdDissat => 11,
            ErrorKind::ChildBase3 => 12,
        }
    }
}

impl Correctness {
    pub const TRUE: Correctness = Correctness {
        base: Base::B,
        input: Input::Zero,
        dissatisfiable: false,
        unit: true,
    };

    pub const FALSE: Correctness = Correctness {
        base: Base::B,
        input: Input::Zero,
        dissatisfiable: true,
        unit: true,
    };

    pub const PK_K: Correctness = Correctness {
        base: Base::K,
        input: Input::OneNonZero,
        dissatisfiable: true,
        unit: true,
    };

    // The crate's pk_h: a script shows the key's hash alone.
    pub const RAW_PK_H: Correctness = Correctness {
        base: Base::K,
        input: Input::AnyNonZero,
        dissatisfiable: true,
        unit: true,
    };

    pub const TIME: Correctness = Correctness {
        base: Base::B,
        input: Input::Zero,
        dissatisfiable: false,
        unit: false,
    };

    pub const HASH: Correctness = Correctness {
        base: Base::B,
        input: Input::OneNonZero,
        dissatisfiable: true,
        unit: true,
    };

    pub const MULTI: Correctness = Correctness {
        base: Base::B,
        input: Input::AnyNonZero,
        dissatisfiable: true,
        unit: true,
    };

    pub const MULTI_A: Correctness = Correctness {
        base: Base::B,
        input: Input::Any,
        dissatisfiable: true,
        unit: true,
    };

    // A threshold of no child yet, from which `threshold_child` starts.
    pub const NO_CHILDREN: Correctness = Correctness {
        base: Base::B,
        input: Input::Zero,
        dissatisfiable: true,
        unit: true,
    };

    pub fn leaf_type(leaf: Leaf) -> Correctness
        ensures { result ≡ leaf_type leaf }
    {
        match leaf {
            Leaf::True => Correctness::TRUE,
            Leaf::False => Correctness::FALSE,
            Leaf::PkK => Correctness::PK_K,
            Leaf::RawPkH => Correctness::RAW_PK_H,
            Leaf::Time => Correctness::TIME,
            Leaf::Hash => Correctness::HASH,
            Leaf::Multi => Correctness::MULTI,
            Leaf::MultiA => Correctness::MULTI_A,
        }
    }

    pub fn no_children() -> Correctness
        ensures { result ≡ no_children }
    {
        Correctness::NO_CHILDREN
    }

    // Whether this type has whatever `other` has.
    #[tactic(auto, unfolding(crate::specs::Rules::is_subtype))]
    pub fn is_subtype(self, other: Correctness) -> bool
        ensures { result ≡ is_subtype self other }
    {
        self.base == other.base
            && self.input.is_subtype(other.input)
            && (self.dissatisfiable || !other.dissatisfiable)
            && (self.unit || !other.unit)
    }

    #[tactic(auto, unfolding(crate::specs::Rules::cast_alt))]
    pub fn cast_alt(self) -> Result<Correctness, ErrorKind>
        ensures { result ≡ cast_alt self }
    {
        if !self.base.is_b() {
            return Err(ErrorKind::ChildBase1);
        }
        Ok(Correctness {
            base: Base::W,
            input: Input::Any,
            ..self
        })
    }

    #[tactic(auto, unfolding(crate::specs::Rules::cast_swap))]
    pub fn cast_swap(self) -> Result<Correctness, ErrorKind>
        ensures { result ≡ cast_swap self }
    {
        if !self.base.is_b() {
            return Err(ErrorKind::ChildBase1);
        }
        if !self.input.takes_one() {
            return Err(ErrorKind::SwapNonOne);
        }
        Ok(Correctness {
            base: Base::W,
            input: Input::Any,
            ..self
        })
    }

    #[tactic(auto, unfolding(crate::specs::Rules::cast_check))]
    pub fn cast_check(self) -> Result<Correctness, ErrorKind>
        ensures { result ≡ cast_check self }
    {
        if !self.base.is_k() {
            return Err(ErrorKind::ChildBase1);
        }
        Ok(Correctness {
            base: Base::B,
            unit: true,
            ..self
        })
    }

    #[tactic(auto, unfolding(crate::specs::Rules::cast_dupif))]
    pub fn cast_dupif(self) -> Result<Correctness, ErrorKind>
        ensures { result ≡ cast_dupif self }
    {
        if !self.base.is_v() {
            return Err(ErrorKind::ChildBase1);
        }
        if !self.input.is_zero() {
            return Err(ErrorKind::NonZeroDupIf);
        }
        Ok(Correctness {
            base: Base::B,
            input: Input::OneNonZero,
            dissatisfiable: true,
            unit: false,
        })
    }

    #[tactic(auto, unfolding(crate::specs::Rules::cast_verify))]
    pub fn cast_verify(self) -> Result<Correctness, ErrorKind>
        ensures { result ≡ cast_verify self }
    {
        if !self.base.is_b() {
            return Err(ErrorKind::ChildBase1);
        }
        Ok(Correctness {
            base: Base::V,
            input: self.input,
            dissatisfiable: false,
            unit: false,
        })
    }

    #[tactic(auto, unfolding(crate::specs::Rules::cast_nonzero))]
    pub fn cast_nonzero(self) -> Result<Correctness, ErrorKind>
        ensures { result ≡ cast_nonzero self }
    {
        if !self.input.top_nonzero() {
            return Err(ErrorKind::NonZeroZero);
        }
        if !self.base.is_b() {
            return Err(ErrorKind::ChildBase1);
        }
        Ok(Correctness {
            dissatisfiable: true,
            ..self
        })
    }

    #[tactic(auto, unfolding(crate::specs::Rules::cast_zeronotequal))]
    pub fn cast_zeronotequal(self) -> Result<Correctness, ErrorKind>
        ensures { result ≡ cast_zeronotequal self }
    {
        if !self.base.is_b() {
            return Err(ErrorKind::ChildBase1);
        }
        Ok(Correctness { unit: true, ..self })
    }

    #[tactic(auto, unfolding(crate::specs::Rules::cast_true))]
    pub fn cast_true(self) -> Result<Correctness, ErrorKind>
        ensures { result ≡ cast_true self }
    {
        if !self.base.is_v() {
            return Err(ErrorKind::ChildBase1);
        }
        Ok(Correctness {
            base: Base::B,
            input: self.input,
            dissatisfiable: false,
            unit: true,
        })
    }

    #[tactic(auto, unfolding(crate::specs::Rules::cast_or_i_false))]
    pub fn cast_or_i_false(self) -> Result<Correctness, ErrorKind>
        ensures { result ≡ cast_or_i_false self }
    {
        if !self.base.is_b() {
            return Err(ErrorKind::ChildBase1);
        }
        Ok(Correctness {
            input: self.input.either(Input::Zero),
            dissatisfiable: true,
            ..self
        })
    }

    #[tactic(auto, unfolding(crate::specs::Rules::and_b))]
    pub fn and_b(left: Correctness, right: Correctness) -> Result<Correctness, ErrorKind>
        ensures { result ≡ and_b left right }
    {
        if !(left.base.is_b() && right.base.is_w()) {
            return Err(ErrorKind::ChildBase2);
        }
        Ok(Correctness {
            base: Base::B,
            input: left.input.and(right.input),
            dissatisfiable: left.dissatisfiable && right.dissatisfiable,
            unit: true,
        })
    }

    #[tactic(auto, unfolding(crate::specs::Rules::and_v))]
    pub fn and_v(left: Correctness, right: Correctness) -> Result<Correctness, ErrorKind>
        ensures { result ≡ and_v left right }
    {
        if !left.base.is_v() || right.base.is_w() {
            return Err(ErrorKind::ChildBase2);
        }
        Ok(Correctness {
            input: left.input.and(right.input),
            dissatisfiable: false,
            ..right
        })
    }

    #[tactic(auto, unfolding(crate::specs::Rules::or_b))]
    pub fn or_b(left: Correctness, right: Correctness) -> Result<Correctness, ErrorKind>
        ensures { result ≡ or_b left right }
    {
        if !left.dissatisfiable {
            return Err(ErrorKind::LeftNotDissatisfiable);
        }
        if !right.dissatisfiable {
            return Err(ErrorKind::RightNotDissatisfiable);
        }
        if !(left.base.is_b() && right.base.is_w()) {
            return Err(ErrorKind::ChildBase2);
        }
        Ok(Correctness {
            base: Base::B,
            input: left.input.or(right.input),
            dissatisfiable: true,
            unit: true,
        })
    }

    #[tactic(auto, unfolding(crate::specs::Rules::or_d))]
    pub fn or_d(left: Correctness, right: Correctness) -> Result<Correctness, ErrorKind>
        ensures { result ≡ or_d left right }
    {
        if !left.dissatisfiable {
            return Err(ErrorKind::LeftNotDissatisfiable);
        }
        if !left.unit {
            return Err(ErrorKind::LeftNotUnit);
        }
        if !(left.base.is_b() && right.base.is_b()) {
            return Err(ErrorKind::ChildBase2);
        }
        Ok(Correctness {
            input: left.input.or_else(right.input),
            ..right
        })
    }

    #[tactic(auto, unfolding(crate::specs::Rules::or_c))]
    pub fn or_c(left: Correctness, right: Correctness) -> Result<Correctness, ErrorKind>
        ensures { result ≡ or_c left right }
    {
        if !left.dissatisfiable {
            return Err(ErrorKind::LeftNotDissatisfiable);
        }
        if !left.unit {
            return Err(ErrorKind::LeftNotUnit);
        }
        if !(left.base.is_b() && right.base.is_v()) {
            return Err(ErrorKind::ChildBase2);
        }
        Ok(Correctness {
            base: Base::V,
            input: left.input.or_else(right.input),
            dissatisfiable: false,
            unit: false,
        })
    }

    #[tactic(auto, unfolding(crate::specs::Rules::or_i))]
    pub fn or_i(left: Correctness, right: Correctness) -> Result<Correctness, ErrorKind>
        ensures { result ≡ or_i left right }
    {
        if !left.base.equal_bkv(right.base) {
            return Err(ErrorKind::ChildBase2);
        }
        Ok(Correctness {
            base: left.base,
            input: left.input.either(right.input),
            dissatisfiable: left.dissatisfiable || right.dissatisfiable,
            unit: left.unit && right.unit,
        })
    }

    // and_or's script order is a, c, b.
    #[tactic(auto, unfolding(crate::specs::Rules::and_or))]
    pub fn and_or(a: Correctness, b: Correctness, c: Correctness) -> Result<Correctness, ErrorKind>
        ensures { result ≡ and_or a b c }
    {
        if !a.dissatisfiable {
            return Err(ErrorKind::LeftNotDissatisfiable);
        }
        if !a.unit {
            return Err(ErrorKind::LeftNotUnit);
        }
        if !(a.base.is_b() && b.base.equal_bkv(c.base)) {
            return Err(ErrorKind::ChildBase3);
        }
        Ok(Correctness {
            base: b.base,
            input: a.input.and_or(b.input, c.input),
            dissatisfiable: c.dissatisfiable,
            unit: b.unit && c.unit,
        })
    }

    // One turn of the crate's `threshold`: child number i, after those whose threshold has the type `earlier`. The crate
    // counts arguments up to "more than one"; the input so far says as much.
    #[tactic(auto, unfolding(crate::specs::Rules::threshold_child))]
    pub fn threshold_child(
        i: u32,
        earlier: Correctness,
        child: Correctness,
    ) -> Result<Correctness, ErrorKind>
        ensures { result ≡ threshold_child i earlier child }
    {
        if !child.base.fits_threshold(i) {
            return Err(ErrorKind::ThresholdBase);
        }
        if !child.unit {
            return Err(ErrorKind::ThresholdNonUnit);
        }
        if !child.dissatisfiable {
            return Err(ErrorKind::ThresholdDissat);
        }
        Ok(Correctness {
            base: Base::B,
            input: earlier.input.or(child.input),
            dissatisfiable: true,
            unit: true,
        })
    }
}
