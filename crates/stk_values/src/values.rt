// The trait of stores of values.
ghost use Rattle.std.specs.Prelude.{◌≡◌, ℕ, ◌+◌, ◌*◌, ◌<◌, ◌≤◌, ◌^◌, ℤ, pos, List, get_or, Bool, not, ◌&&◌, IfOk, OnErr, IsTrue, if◌then◌else◌};
ghost use Rattle.stk_ctype.specs.declared.kind.IntKind.{IntKind};
ghost use Rattle.stk_ctype.specs.declared.kind.IntKind.TheVariants.{Int, Long, ULong};
ghost use Rattle.stk_numbers.specs.Kinds.{width_of, fits, wrap};
ghost use Rattle.stk_numbers.specs.Values.{arith, shifted, is_oversized, compared, moved, distance};
ghost use Rattle.stk_numbers.specs.Conditions.{violates, leaves_memory, is_outside};
ghost use Rattle.stk_values.specs.Charges.{wider, convert_charge, arith_charge, breaks_charge, move_charge, distance_charge};
ghost use Rattle.stk_values.specs.Keeping.{Keeps, truth};

use stk_base::NoMemory;
use stk_numbers::{ArithOp, CompareOp, IntKind, ShiftOp, UbKind};

/// A store of values. Under each input map that the store serves, a value has one number, which is in the range of its
/// kind. An input map is a list of numbers, one for each key of a function.
///
/// Each call answers a value whose number, under each map, is that of the operation for the numbers of its operands,
/// also where its behaviour is undefined. What was made before keeps its numbers, and each call raises the store's cost
/// by at most its charge; all that also after `NoMemory`. A store that needs no memory never answers it. A test is
/// a value of kind `Int` that is 0 or 1. Addresses have kind `ULong`.
///
/// The conditions of library calls are composed of these calls. The absolute value of x overflows where x equals the
/// least number of its kind, by `compare`; the value is chosen by `choose` between x and the difference of 0 and x, by
/// `compare` with 0. A copy overlaps where the distance of the addresses is below the count: by `choose` between the
/// two differences, by `compare` of the addresses, and `compare` with the count.
pub trait Values {
    type Value: Copy;

    /// The input maps that the store serves.
    ghost serves: { Self → List ℤ → Type 0 };

    /// The keys that the store has, at their kinds.
    ghost has_key: { Self → ℕ → IntKind → Type 0 };

    /// The values that the store made, at their kinds.
    ghost made: { Self → IntKind → Self.Value → Type 0 };

    /// The number of a value of a kind under a map.
    ghost shows: { Self → List ℤ → IntKind → Self.Value → ℤ → Type 0 };

    /// What the values made so far cost.
    ghost cost: { Self → ℕ };

    /// That stores of this type need memory for values.
    ghost needs_memory: { Type 0 };

    /// The number, which is in the range of the kind.
    fn constant(&mut self, kind: IntKind, number: i128) -> Result<Self::Value, NoMemory>
        requires { IsTrue (fits kind number) }
        ensures makes { IfOk result (λ v. made self.new kind v) }
        ensures value { IfOk result (λ v. (m : List ℤ) → serves self.old m → shows self.new m kind v number) }
        ensures keeps { Keeps serves has_key made shows self.old self.new }
        ensures charge { cost self.new ≤ cost self.old }
        ensures memory { OnErr result needs_memory };

    /// The number of a key, which the store has at this kind.
    fn input(&mut self, key: u32, kind: IntKind) -> Result<Self::Value, NoMemory>
        requires { has_key self.old key kind }
        ensures makes { IfOk result (λ v. made self.new kind v) }
        ensures value { IfOk result (λ v. (m : List ℤ) → serves self.old m → shows self.new m kind v (get_or m key (pos 0))) }
        ensures keeps { Keeps serves has_key made shows self.old self.new }
        ensures charge { cost self.new ≤ cost self.old }
        ensures memory { OnErr result needs_memory };

    /// A value converted from one kind to another (C11 6.3.1.2, 6.3.1.3).
    fn convert(
        &mut self,
        from: IntKind,
        to: IntKind,
        value: Self::Value,
    ) -> Result<Self::Value, NoMemory>
        requires { made self.old from value }
        ensures makes { IfOk result (λ v. made self.new to v) }
        ensures value { IfOk result (λ v. (m : List ℤ) (x : ℤ) → serves self.old m → shows self.old m from value x → shows self.new m to v (wrap to x)) }
        ensures keeps { Keeps serves has_key made shows self.old self.new }
        ensures charge { cost self.new ≤ cost self.old + convert_charge from to }
        ensures memory { OnErr result needs_memory };

    /// `+ - * / % & ^ |` on two values of one kind (C11 6.5.5, 6.5.6, 6.5.10 to 6.5.12).
    fn arith(
        &mut self,
        op: ArithOp,
        kind: IntKind,
        left: Self::Value,
        right: Self::Value,
    ) -> Result<Self::Value, NoMemory>
        requires left { made self.old kind left }
        requires right { made self.old kind right }
        ensures makes { IfOk result (λ v. made self.new kind v) }
        ensures value { IfOk result (λ v. (m : List ℤ) (x y : ℤ) → serves self.old m → shows self.old m kind left x → shows self.old m kind right y → shows self.new m kind v (arith op kind x y)) }
        ensures keeps { Keeps serves has_key made shows self.old self.new }
        ensures charge { cost self.new ≤ cost self.old + arith_charge op (width_of kind) }
        ensures memory { OnErr result needs_memory };

    /// `<<` and `>>` by a count of any kind (C11 6.5.7).
    fn shift(
        &mut self,
        op: ShiftOp,
        kind: IntKind,
        left: Self::Value,
        count_kind: IntKind,
        count: Self::Value,
    ) -> Result<Self::Value, NoMemory>
        requires left { made self.old kind left }
        requires count { made self.old count_kind count }
        ensures makes { IfOk result (λ v. made self.new kind v) }
        ensures value { IfOk result (λ v. (m : List ℤ) (x y : ℤ) → serves self.old m → shows self.old m kind left x → shows self.old m count_kind count y → shows self.new m kind v (shifted op kind x y)) }
        ensures keeps { Keeps serves has_key made shows self.old self.new }
        ensures charge { cost self.new ≤ cost self.old + 26 * wider kind count_kind }
        ensures memory { OnErr result needs_memory };

    /// Whether a comparison of two values of one kind holds, as a test (C11 6.5.8, 6.5.9).
    fn compare(
        &mut self,
        op: CompareOp,
        kind: IntKind,
        left: Self::Value,
        right: Self::Value,
    ) -> Result<Self::Value, NoMemory>
        requires left { made self.old kind left }
        requires right { made self.old kind right }
        ensures makes { IfOk result (λ v. made self.new Int v) }
        ensures value { IfOk result (λ v. (m : List ℤ) (x y : ℤ) → serves self.old m → shows self.old m kind left x → shows self.old m kind right y → shows self.new m Int v (truth (compared op x y))) }
        ensures keeps { Keeps serves has_key made shows self.old self.new }
        ensures charge { cost self.new ≤ cost self.old + 10 * width_of kind }
        ensures memory { OnErr result needs_memory };

    /// The address so many elements of a size before or behind a base, modulo 2^64 (C11 6.5.6p8).
    fn moved(
        &mut self,
        base: Self::Value,
        step_kind: IntKind,
        step: Self::Value,
        size: u64,
        minus: bool,
    ) -> Result<Self::Value, NoMemory>
        requires base { made self.old ULong base }
        requires step { made self.old step_kind step }
        requires least { 1 ≤ size }
        requires most { size < 2 ^ 31 }
        ensures makes { IfOk result (λ v. made self.new ULong v) }
        ensures value { IfOk result (λ v. (m : List ℤ) (p : ℕ) (x : ℤ) → serves self.old m → shows self.old m ULong base (pos p) → shows self.old m step_kind step x → shows self.new m ULong v (pos (moved p x size minus))) }
        ensures keeps { Keeps serves has_key made shows self.old self.new }
        ensures charge { cost self.new ≤ cost self.old + move_charge size }
        ensures memory { OnErr result needs_memory };

    /// How many elements of a size the first address is behind the second, of kind `Long` (C11 6.5.6p9).
    fn distance(
        &mut self,
        left: Self::Value,
        right: Self::Value,
        size: u64,
    ) -> Result<Self::Value, NoMemory>
        requires left { made self.old ULong left }
        requires right { made self.old ULong right }
        requires least { 1 ≤ size }
        requires most { size < 2 ^ 31 }
        ensures makes { IfOk result (λ v. made self.new Long v) }
        ensures value { IfOk result (λ v. (m : List ℤ) (p q : ℕ) → serves self.old m → shows self.old m ULong left (pos p) → shows self.old m ULong right (pos q) → shows self.new m Long v (distance p q size)) }
        ensures keeps { Keeps serves has_key made shows self.old self.new }
        ensures charge { cost self.new ≤ cost self.old + distance_charge size }
        ensures memory { OnErr result needs_memory };

    /// The first value where the test is 1, and else the second.
    fn choose(
        &mut self,
        test: Self::Value,
        kind: IntKind,
        yes: Self::Value,
        no: Self::Value,
    ) -> Result<Self::Value, NoMemory>
        requires test { made self.old Int test }
        requires first { made self.old kind yes }
        requires second { made self.old kind no }
        ensures makes { IfOk result (λ v. made self.new kind v) }
        ensures value { IfOk result (λ v. (m : List ℤ) (b : Bool) (x y : ℤ) → serves self.old m → shows self.old m Int test (truth b) → shows self.old m kind yes x → shows self.old m kind no y → shows self.new m kind v (if b then x else y)) }
        ensures keeps { Keeps serves has_key made shows self.old self.new }
        ensures charge { cost self.new ≤ cost self.old + 3 * width_of kind }
        ensures memory { OnErr result needs_memory };

    /// Whether both tests are 1, as a test.
    fn both(&mut self, left: Self::Value, right: Self::Value) -> Result<Self::Value, NoMemory>
        requires left { made self.old Int left }
        requires right { made self.old Int right }
        ensures makes { IfOk result (λ v. made self.new Int v) }
        ensures value { IfOk result (λ v. (m : List ℤ) (a b : Bool) → serves self.old m → shows self.old m Int left (truth a) → shows self.old m Int right (truth b) → shows self.new m Int v (truth (a && b))) }
        ensures keeps { Keeps serves has_key made shows self.old self.new }
        ensures charge { cost self.new ≤ cost self.old + 3 }
        ensures memory { OnErr result needs_memory };

    /// 1 less a test.
    fn opposite(&mut self, test: Self::Value) -> Result<Self::Value, NoMemory>
        requires { made self.old Int test }
        ensures makes { IfOk result (λ v. made self.new Int v) }
        ensures value { IfOk result (λ v. (m : List ℤ) (b : Bool) → serves self.old m → shows self.old m Int test (truth b) → shows self.new m Int v (truth (not b))) }
        ensures keeps { Keeps serves has_key made shows self.old self.new }
        ensures charge { cost self.new ≤ cost self.old }
        ensures memory { OnErr result needs_memory };

    /// Whether an operator on two values of one kind violates a condition of this kind, as a test (C11 6.5p5, 6.5.5p5).
    fn breaks(
        &mut self,
        what: UbKind,
        op: ArithOp,
        kind: IntKind,
        left: Self::Value,
        right: Self::Value,
    ) -> Result<Self::Value, NoMemory>
        requires left { made self.old kind left }
        requires right { made self.old kind right }
        ensures makes { IfOk result (λ v. made self.new Int v) }
        ensures value { IfOk result (λ v. (m : List ℤ) (x y : ℤ) → serves self.old m → shows self.old m kind left x → shows self.old m kind right y → shows self.new m Int v (truth (violates what op kind x y))) }
        ensures keeps { Keeps serves has_key made shows self.old self.new }
        ensures charge { cost self.new ≤ cost self.old + breaks_charge op (width_of kind) }
        ensures memory { OnErr result needs_memory };

    /// Whether a count is below 0 or at least the width of the kind that is shifted, as a test (C11 6.5.7p3).
    fn breaks_shift(
        &mut self,
        kind: IntKind,
        count_kind: IntKind,
        count: Self::Value,
    ) -> Result<Self::Value, NoMemory>
        requires { made self.old count_kind count }
        ensures makes { IfOk result (λ v. made self.new Int v) }
        ensures value { IfOk result (λ v. (m : List ℤ) (y : ℤ) → serves self.old m → shows self.old m count_kind count y → shows self.new m Int v (truth (is_oversized kind y))) }
        ensures keeps { Keeps serves has_key made shows self.old self.new }
        ensures charge { cost self.new ≤ cost self.old + 10 * wider kind count_kind }
        ensures memory { OnErr result needs_memory };

    /// Whether a moved address leaves the address space, as a test: the exact one is below 0 or above 2^64 - 1 (C11
    /// 6.5.6p8).
    fn breaks_move(
        &mut self,
        base: Self::Value,
        step_kind: IntKind,
        step: Self::Value,
        size: u64,
        minus: bool,
    ) -> Result<Self::Value, NoMemory>
        requires base { made self.old ULong base }
        requires step { made self.old step_kind step }
        requires least { 1 ≤ size }
        requires most { size < 2 ^ 31 }
        ensures makes { IfOk result (λ v. made self.new Int v) }
        ensures value { IfOk result (λ v. (m : List ℤ) (p : ℕ) (x : ℤ) → serves self.old m → shows self.old m ULong base (pos p) → shows self.old m step_kind step x → shows self.new m Int v (truth (leaves_memory p x size minus))) }
        ensures keeps { Keeps serves has_key made shows self.old self.new }
        ensures charge { cost self.new ≤ cost self.old + (move_charge size + 512) }
        ensures memory { OnErr result needs_memory };

    /// Whether an index is below 0 or at least the count of elements, as a test (C11 6.5.2.1, 6.5.6p8).
    fn breaks_bounds(
        &mut self,
        index_kind: IntKind,
        index: Self::Value,
        count: u64,
    ) -> Result<Self::Value, NoMemory>
        requires { made self.old index_kind index }
        ensures makes { IfOk result (λ v. made self.new Int v) }
        ensures value { IfOk result (λ v. (m : List ℤ) (x : ℤ) → serves self.old m → shows self.old m index_kind index x → shows self.new m Int v (truth (is_outside x count))) }
        ensures keeps { Keeps serves has_key made shows self.old self.new }
        ensures charge { cost self.new ≤ cost self.old + 704 }
        ensures memory { OnErr result needs_memory };

    /// A value that was made has a number under each map that is served, in the range of its kind.
    ghost has_number: { (s : Self) (m : List ℤ) (k : IntKind) (v : Self.Value) → serves s m → made s k v → (z : ℤ) × shows s m k v z × IsTrue (fits k z) };

    /// It has one number.
    ghost one_number: { (s : Self) (m : List ℤ) (k : IntKind) (v : Self.Value) (x y : ℤ) → shows s m k v x → shows s m k v y → x ≡ y };
}
