//! One row of a table of cases: a name and its value.
ghost use Rattle.std.specs.Prelude.{◌≡◌, ◌≤◌, length, map, IsTrue, nat_le};

/// A row. Of `text` only `len` bytes count: they are its name.
#[derive(Clone, Copy, Debug)]
pub struct Case {
    pub text: [u8; 48],
    pub len: u8,
    pub value: u16,
    pub ghost fits: { len ≤ 48 },
}

impl Case {
    ghost use Rattle.std.specs.List.{list_all};
    ghost use Rattle.byte_tables.specs.Cases.{name_of, row_of, rows_of};

    pub fn new(name: &[u8], value: u16) -> Case
        requires fits { length name.now ≤ 48 }
        ensures { row_of result ≡ (name.now, value) }
    {
        let mut text = [0; 48];
        text[..name.len()].copy_from_slice(name);
        Case {
            text,
            len: name.len() as u8,
            value,
        }
    }

    pub fn name(&self) -> &[u8]
        ensures { result.now ≡ name_of self.now }
    {
        &self.text[..usize::from(self.len)]
    }

    /// The rows with these names and values, in this order.
    pub fn rows<const N: usize>(rows: &[(&str, u16)]) -> [Case; N]
        requires whole { length rows.now ≡ N }
        requires fits { IsTrue (list_all (λ row. nat_le (length row.0.now) 48) rows.now) }
        ensures { rows_of result ≡ map (λ row. (row.0.now, row.1)) rows.now }
    {
        let mut table = [Case::new(b"", 0); N];
        for place in 0..N {
            let (name, value) = rows[place];
            table[place] = Case::new(name.as_bytes(), value);
        }
        table
    }
}

/// An array of rows, each written as a name and a value: `cases!["close" => 0, "chunked" => 1]`.
/// Its type, as `[Case; 2]`, says how many there are.
#[macro_export]
macro_rules! cases {
    ($($name:literal => $value:expr),* $(,)?) => {
        $crate::Case::rows(&[$(($name, $value)),*])
    };
}
