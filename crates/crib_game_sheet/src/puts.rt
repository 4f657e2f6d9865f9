//! Pieces of a page, one after another.

// Puts pieces one after another. A piece is a text, bytes in brackets, or a function with its arguments after the page.
macro_rules! puts {
    ($page:ident:) => {};
    ($page:ident: $text:literal $($more:tt)*) => {{ $page.put($text); puts!($page: $($more)*); }};
    ($page:ident: [$bytes:expr] $($more:tt)*) => {{ $page.put($bytes); puts!($page: $($more)*); }};
    ($page:ident: $put:ident($($with:expr),*) $($more:tt)*) => {{ $put($page $(, $with)*); puts!($page: $($more)*); }};
}

pub(crate) use puts;
