// Values of enums, by their variants: their names, their equality and their copies.

/// The value that an atom names, if it is one of these words.
#[macro_export]
macro_rules! named_value {
    ($name:expr, $($word:literal => $value:expr),* $(,)?) => {
        $(if $name.is($word) { Some($value) } else)* { None }
    };
}

/// Whether two values are the same variant with equal fields; each field is given a second name, for the other value's.
#[macro_export]
macro_rules! same_variants {
    ($this:expr, $other:expr, $Enum:ident, $($Variant:ident { $($field:ident: $others:ident),* })*) => {
        match ($this, $other) {
            $(($Enum::$Variant { $($field),* }, $Enum::$Variant { $($field: $others),* }) => true $(&& $field.same($others))*,)*
            (_, _) => false,
        }
    };
}

/// The same variant with copies of its fields.
#[macro_export]
macro_rules! copied_variants {
    ($this:expr, $alloc:expr, $Enum:ident, $($Variant:ident { $($field:ident),* })*) => {
        match $this {
            $($Enum::$Variant { $($field),* } => Ok($Enum::$Variant { $($field: $field.copy($alloc)?),* }),)*
        }
    };
}
