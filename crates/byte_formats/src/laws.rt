//! Laws of formats: they are read back, and nothing else is read.

ghost use Rattle.std.specs.Prelude.{◌≡◌, ◌≢◌, ◌↔◌, ℕ, Bool, true, false, List, [], Option, Some};
ghost use Rattle.byte_formats.specs.Formats.{Format, number8, number16, number32, number64, signed32, nothing, block, text, both, made, coded, restricted, ascending, optional, many, counted, listed};
ghost use Rattle.byte_formats.specs.Choices.{Kinds, kind, or_kinds, tagged, one_of_two, one_of_three};
ghost use Rattle.byte_formats.specs.Lawful.{IsFormat, AreKinds, AreBytes, Spells};

/// A law: numbers, texts and blocks of bytes are formats.
pub fn fields_are_formats()
    ensures number8 { IsFormat number8 }
    ensures number16 { IsFormat number16 }
    ensures number32 { IsFormat number32 }
    ensures number64 { IsFormat number64 }
    ensures signed32 { IsFormat signed32 }
    ensures nothing { IsFormat nothing }
    ensures block { (size : ℕ) → IsFormat (block size) }
    ensures text { IsFormat text }
{}

/// A law: formats are made of formats.
pub fn made_formats_are_formats<X, Y>()
    ensures both { (f : Format X) (g : Format Y) → IsFormat f → IsFormat g → IsFormat (both f g) }
    ensures made { (f : Format X) (to : X → Y) (from : Y → X)
        → ((y : Y) → to (from y) ≡ y) → ((x : X) → from (to x) ≡ x) → IsFormat f → IsFormat (made f to from) }
    ensures coded { (f : Format X) (to : X → Option Y) (from : Y → X)
        → ((y : Y) → f.fits (from y) ≡ true → to (from y) ≡ Some y) → ((x : X) (y : Y) → to x ≡ Some y → from y ≡ x)
        → IsFormat f → IsFormat (coded f to from) }
    ensures restricted { (f : Format X) (test : X → Bool) → IsFormat f → IsFormat (restricted f test) }
    ensures optional { (f : Format X) → IsFormat f → IsFormat (optional f) }
{}

/// A law: lists of formats are formats.
pub fn list_formats_are_formats<X>()
    ensures many { (f : Format X) (n : ℕ) → IsFormat f → IsFormat (many f n) }
    ensures counted { (count : Format ℕ) (sized : ℕ → Format X) (size : X → ℕ)
        → IsFormat count → ((n : ℕ) → IsFormat (sized n)) → ((n : ℕ) (x : X) → (sized n).fits x ≡ true → size x ≡ n)
        → IsFormat (counted count sized size) }
    ensures listed { (count : Format ℕ) (f : Format X) → IsFormat count → IsFormat f → IsFormat (listed count f) }
    ensures ascending { (before : X → X → Bool) (f : Format (List X)) → IsFormat f → IsFormat (ascending before f) }
{}

/// A law: choices of formats by a tag are formats, where the tags differ.
pub fn choices_are_formats<X, Y, Z>()
    ensures kind { (tag : ℕ) (f : Format X) → IsFormat f → AreKinds (kind tag f) }
    ensures or_kinds { (tag : ℕ) (f : Format X) (others : Kinds Y)
        → others.has tag ≡ false → IsFormat f → AreKinds others → AreKinds (or_kinds tag f others) }
    ensures tagged { (kinds : Kinds X) → AreKinds kinds → IsFormat (tagged kinds) }
    ensures two { (a b : ℕ) (f : Format X) (g : Format Y) → a ≢ b → IsFormat f → IsFormat g → IsFormat (one_of_two a f b g) }
    ensures three { (a b c : ℕ) (f : Format X) (g : Format Y) (h : Format Z)
        → a ≢ b → a ≢ c → b ≢ c → IsFormat f → IsFormat g → IsFormat h → IsFormat (one_of_three a f b g c h) }
{}

/// A law: bytes spell one value of a format at most, and are read to their end just where they spell it.
pub fn bytes_spell_one_value<X>()
    ensures one { (f : Format X) → IsFormat f → (bytes : List ℕ) (x y : X) → Spells f bytes x → Spells f bytes y → x ≡ y }
    ensures whole { (f : Format X) → IsFormat f → (bytes : List ℕ) (x : X) → AreBytes bytes
        → (f.read bytes ≡ Some (x, [])) ↔ Spells f bytes x }
{}
