//! Laws of the definitions.

ghost use Rattle.std.specs.Prelude.{◌≡◌, ◌<◌, ◌↔◌, ℕ, List, All, IsTrue, length};
ghost use Rattle.record_codec.specs.Names.{IsName, IsBytes};
ghost use Rattle.tree_paths.specs.Paths.{IsBelow, is_below, parsed, pathname_of, path_max};

/// What a path's text stands for are names.
pub fn parsed_names_are_names()
    ensures { (text : List ℕ) (names : List (List ℕ)) → IsBytes text → parsed text ≡ Ok names → All IsName names }
{}

/// Each list of names that is not too long has a text, which stands for it.
pub fn pathnames_are_parsed()
    ensures { (names : List (List ℕ)) → All IsName names → length (pathname_of names) < path_max
        → parsed (pathname_of names) ≡ Ok names }
{}

/// `is_below` is true exactly if the second path is a proper prefix of the first.
pub fn is_below_tells_proper_prefixes()
    ensures { (path above : List (List ℕ)) → IsTrue (is_below path above) ↔ IsBelow path above }
{}
