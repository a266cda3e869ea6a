//! The classes of bytes that messages are made of.
ghost use Rattle.std.specs.Prelude.{◌≡◌, ◌<◌};
ghost use Rattle.byte_tables.specs.Classes.{is_in};
ghost use Rattle.byte_tables.specs.Classes as classes;

/// The bit of a byte of a token, as a method or a field's name.
pub const TOKEN: u8 = 1;
/// The bit of a byte of a field's value.
pub const FIELD: u8 = 2;
/// The bit of a byte of a request's target.
pub const TARGET: u8 = 4;
/// The bit of a decimal digit.
pub const DIGIT: u8 = 8;
/// The bit of a hexadecimal digit of either case.
pub const HEX: u8 = 16;

// The bits of one byte, by the letter of its kind.
macro_rules! bits {
    // none
    (_) => {
        0
    };
    // white space, or obs-text
    (w) => {
        FIELD
    };
    // a visible character that no token has
    (v) => {
        FIELD | TARGET
    };
    // a character of tokens
    (t) => {
        FIELD | TARGET | TOKEN
    };
    // the letters A to F and a to f
    (h) => {
        FIELD | TARGET | TOKEN | HEX
    };
    // a digit
    (d) => {
        FIELD | TARGET | TOKEN | HEX | DIGIT
    };
}

macro_rules! classes {
    ($($kind:tt)*) => {
        [$(bits!($kind)),*]
    };
}

/// The bits of the classes that a byte is of, and no other bit.
pub fn class_of(byte: u8) -> u8
    ensures token { is_in TOKEN result ≡ classes.is_token byte }
    ensures field { is_in FIELD result ≡ classes.is_field byte }
    ensures target { is_in TARGET result ≡ classes.is_target byte }
    ensures digit { is_in DIGIT result ≡ classes.is_digit byte }
    ensures hex { is_in HEX result ≡ classes.is_hex byte }
    ensures no_other { result < 32 }
{
    static CLASSES: [u8; 256] = classes! {
        _ _ _ _ _ _ _ _ _ w _ _ _ _ _ _
    //                    HTAB
        _ _ _ _ _ _ _ _ _ _ _ _ _ _ _ _
        w t v t t t t t v v t t v t t v
    //  SP! " # $ % & ' ( ) * + , - . /
        d d d d d d d d d d v v v v v v
    //  0 1 2 3 4 5 6 7 8 9 : ; < = > ?
        v h h h h h h t t t t t t t t t
    //  @ A B C D E F G H I J K L M N O
        t t t t t t t t t t t v v v t t
    //  P Q R S T U V W X Y Z [ \ ] ^ _
        t h h h h h h t t t t t t t t t
    //  ` a b c d e f g h i j k l m n o
        t t t t t t t t t t t v t v t _
    //  p q r s t u v w x y z { | } ~ DEL
        w w w w w w w w w w w w w w w w
    //  0x80 to 0xFF are obs-text
        w w w w w w w w w w w w w w w w
        w w w w w w w w w w w w w w w w
        w w w w w w w w w w w w w w w w
        w w w w w w w w w w w w w w w w
        w w w w w w w w w w w w w w w w
        w w w w w w w w w w w w w w w w
        w w w w w w w w w w w w w w w w
    };
    CLASSES[byte as usize]
}

/// Whether a byte is a tchar (RFC 9110, section 5.6.2).
pub fn is_token(byte: u8) -> bool
    ensures { result ≡ classes.is_token byte }
{
    class_of(byte) & TOKEN != 0
}

/// Whether a byte may stand in a field's value (RFC 9110, section 5.5).
pub fn is_field(byte: u8) -> bool
    ensures { result ≡ classes.is_field byte }
{
    class_of(byte) & FIELD != 0
}

/// Whether a byte may stand in a request's target (RFC 9112, section 3.2).
pub fn is_target(byte: u8) -> bool
    ensures { result ≡ classes.is_target byte }
{
    class_of(byte) & TARGET != 0
}

/// Whether a byte is SP or HTAB (RFC 9110, section 5.6.3).
pub fn is_white_space(byte: u8) -> bool
    ensures { result ≡ classes.is_white_space byte }
{
    matches!(byte, b' ' | b'\t')
}

/// Whether a byte is a DIGIT (RFC 5234, appendix B.1).
pub fn is_digit(byte: u8) -> bool
    ensures { result ≡ classes.is_digit byte }
{
    class_of(byte) & DIGIT != 0
}

/// Whether a byte is a HEXDIG of either case (RFC 5234, appendix B.1).
pub fn is_hex(byte: u8) -> bool
    ensures { result ≡ classes.is_hex byte }
{
    class_of(byte) & HEX != 0
}
