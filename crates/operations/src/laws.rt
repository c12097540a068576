//! Laws of the results, in the standard's words.

ghost use Rattle.std.specs.Prelude.{◌≡◌, ℕ, ◌+◌, ◌-◌, ◌*◌, ◌%◌, ◌^◌, ◌<◌, ◌≤◌, ◌↔◌, max, IsTrue, ℤ, pos, negsuc, ◌+ℤ◌, ◌*ℤ◌, ◌≤ℤ◌, ◌<ℤ◌, nat_abs, int_div, int_rem};
ghost use Rattle.std.specs.Int.{bit_at, byte_at, int_div_euclid};
ghost use Rattle.decode.specs.declared.insn.AluOp.{AluOp};
ghost use Rattle.decode.specs.declared.insn.AluOp.TheVariants as op;
ghost use Rattle.decode.specs.declared.insn.Condition.TheVariants.{Set};
ghost use Rattle.decode.specs.declared.insn.Width.{Width};
ghost use Rattle.decode.specs.declared.insn.Width.TheVariants.{W32};
ghost use Rattle.operations.specs.Arithmetic.{computed};
ghost use Rattle.operations.specs.Conditions.{compared};
ghost use Rattle.operations.specs.ByteSwap.{reversed};
ghost use Rattle.operations.specs.Operations.{negation_of, result_of};
ghost use Rattle.operations.specs.Words.{bits_of, extended_from, low_of, signed_of, word_of_signed};

/// Every result is a word of 64 bits, and a result of 32 bits has no upper half.
pub fn results_are_words()
    ensures whole { (op : AluOp) (width : Width) (a b : ℕ) → a < 2 ^ 64 → b < 2 ^ 64 → result_of op width a b < 2 ^ 64 }
    ensures half { (op : AluOp) (a b : ℕ) → result_of op W32 a b < 2 ^ 32 }
{}

/// A difference and a negation undo a sum (RFC 9669 section 4.1).
pub fn differences_undo_sums()
    ensures difference { (width : Width) (a b : ℕ) → a < 2 ^ 64 → b < 2 ^ 64 → (result_of op.Sub width a b + low_of width b) % 2 ^ bits_of width ≡ low_of width a }
    ensures negation { (width : Width) (a : ℕ) → a < 2 ^ 64 → (negation_of width a + low_of width a) % 2 ^ bits_of width ≡ 0 }
{}

/// DIV gives the quotient and MOD the remainder; by zero they give 0 and the dividend (RFC 9669 section 4.1).
pub fn division_is_the_quotient()
    ensures quotient { (n a b : ℕ) → 0 < b → (computed op.Div n a b * b ≤ a) × (a < (computed op.Div n a b + 1) * b) }
    ensures rest { (n a b : ℕ) → 0 < b → computed op.Div n a b * b + computed op.Mod n a b ≡ a }
    ensures zero { (n a : ℕ) → computed op.Div n a 0 ≡ 0 }
    ensures whole { (n a : ℕ) → computed op.Mod n a 0 ≡ a }
{}

/// A signed quotient is truncated toward zero: the remainder is smaller than the divisor and has the dividend's sign
/// (RFC 9669 section 4.1).
pub fn signed_division_truncates()
    ensures sum { (a b : ℤ) → int_div a b *ℤ b +ℤ int_rem a b ≡ a }
    ensures small { (a b : ℤ) → 0 < nat_abs b → nat_abs (int_rem a b) < nat_abs b }
    ensures positive { (a : ℕ) (b : ℤ) → pos 0 ≤ℤ int_rem (pos a) b }
    ensures negative { (a : ℕ) (b : ℤ) → int_rem (negsuc a) b ≤ℤ pos 0 }
{}

/// AND, OR and XOR go bit by bit (RFC 9669 section 4.1).
pub fn results_by_bits()
    ensures and { (n a b i : ℕ) → i < n → bit_at (computed op.And n a b) i ≡ bit_at a i * bit_at b i }
    ensures or { (n a b i : ℕ) → i < n → bit_at (computed op.Or n a b) i ≡ max (bit_at a i) (bit_at b i) }
    ensures xor { (n a b i : ℕ) → i < n → bit_at (computed op.Xor n a b) i ≡ (bit_at a i + bit_at b i) % 2 }
{}

/// JSET is taken if both words have a bit in common (RFC 9669 section 4.3).
pub fn jset_is_a_common_bit()
    ensures { (n a b : ℕ) → IsTrue (compared Set n a b) ↔ ((i : ℕ) × ((i < n) × (bit_at a i ≡ 1) × (bit_at b i ≡ 1))) }
{}

/// Signed readings are two's complement, and sign extension keeps them (RFC 9669 sections 2.1 and 2.3).
pub fn signed_readings()
    ensures low { (n a : ℕ) → a < 2 ^ (n - 1) → signed_of n a ≡ pos a }
    ensures high { (n a : ℕ) → 2 ^ (n - 1) ≤ a → a < 2 ^ n → signed_of n a +ℤ pos (2 ^ n) ≡ pos a }
    ensures back { (n a : ℕ) → a < 2 ^ n → word_of_signed n (signed_of n a) ≡ a }
    ensures kept { (k n a : ℕ) → 0 < k → k ≤ n → signed_of n (extended_from k n a) ≡ signed_of k (a % 2 ^ k) }
{}

/// Sign extension copies the low bits, and the highest of them to every bit above (RFC 9669 section 2.3).
pub fn sign_extension_copies_the_sign()
    ensures low { (k n a i : ℕ) → 0 < k → k ≤ n → i < k → bit_at (extended_from k n a) i ≡ bit_at a i }
    ensures high { (k n a i : ℕ) → 0 < k → k ≤ i → i < n → bit_at (extended_from k n a) i ≡ bit_at a (k - 1) }
{}

/// ARSH divides the signed reading by a power of two and rounds down (RFC 9669 section 4.1).
pub fn arsh_rounds_down()
    ensures low { (a : ℤ) (m : ℕ) → 0 < m → (int_div_euclid a (pos m) *ℤ pos m) ≤ℤ a }
    ensures high { (a : ℤ) (m : ℕ) → 0 < m → a <ℤ ((int_div_euclid a (pos m) +ℤ pos 1) *ℤ pos m) }
{}

/// A swap reverses the order of the bytes (RFC 9669 section 4.2).
pub fn swaps_reverse_bytes()
    ensures { (n a i : ℕ) → i < n → byte_at i (reversed n a) ≡ byte_at (n - 1 - i) a }
{}
