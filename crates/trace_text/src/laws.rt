//! What holds of all texts. Each function does nothing: its contract is the law.
ghost use Rattle.std.specs.Prelude.{◌≡◌, ◌⊎◌, ◌<◌, ℕ, List, [], ◌∷◌, length};
ghost use Rattle.trace_text.specs.Lines.{BeginsLong, BeginsWithLine, TakesLine, lines_of};

/// A text begins with one line at most, and one rest follows it.
pub fn line_is_unique()
    ensures { (a b text r q : List ℕ) → TakesLine a text r → TakesLine b text q → (a ≡ b) × (r ≡ q) }
{}

/// Each text is exactly one of three: it is empty, it begins with a line, or it begins too long.
pub fn each_text_is_one_of_three()
    ensures one { (text : List ℕ) → (text ≡ []) ⊎ (BeginsWithLine text ⊎ BeginsLong text) }
    ensures empty_no_line { (text : List ℕ) → text ≡ [] → ¬ BeginsWithLine text }
    ensures empty_not_long { (text : List ℕ) → text ≡ [] → ¬ BeginsLong text }
    ensures line_not_long { (text : List ℕ) → BeginsWithLine text → ¬ BeginsLong text }
{}

/// The lines of a text are taken in order, a line that is too long is one of them, and a text with no lines is empty.
pub fn lines_in_order()
    ensures taken { (line text rest : List ℕ) → TakesLine line text rest → lines_of text ≡ line ∷ lines_of rest }
    ensures long { (text : List ℕ) → BeginsLong text
        → (first : List ℕ) × (others : List (List ℕ)) × (lines_of text ≡ first ∷ others) × (131200 < length first) }
    ensures empty { (text : List ℕ) → lines_of text ≡ [] → text ≡ [] }
{}
