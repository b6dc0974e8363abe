// The kinds of joint by their cards.
ghost use Rattle.std.specs.Prelude.{◌≡◌, ℕ, ◌≤◌, true, List, length, ◌≢◌};
ghost use Rattle.card.specs.Text.{all_feedless, bytes_of};

// A joint whose card has `N` lines behind line 1, one for each of its fields.
pub trait CardKind<const N: usize> {
    // The letter that line 1 ends in, the keys of the lines behind it, and the values on them.
    ghost initial: { ℕ };

    ghost keys: { List (List ℕ) };

    ghost fields: { Self → List ℕ };

    fn letter() -> u8
        ensures { result ≡ initial };

    fn key_table() -> &'static [&'static [u8]]
        ensures table { bytes_of result.now ≡ keys }
        ensures few { length result.now ≤ 32 };

    // The joint that has these values.
    fn of_values(values: &[u32; N]) -> Self
        ensures { fields result ≡ values.now };

    // There are `N` keys. Neither the letter nor a key has a line feed. Each joint has a value for each key, and no other joint
    // has the same values.
    ghost sized: { length keys ≡ N };

    ghost plain: { initial ≢ 10 };

    ghost clean: { all_feedless keys ≡ true };

    ghost counted: { (j : Self) → length (fields j) ≡ length keys };

    ghost only: { (i j : Self) → fields i ≡ fields j → i ≡ j };
}
