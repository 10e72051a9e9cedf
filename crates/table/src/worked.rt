// A worked model file.
ghost use Rattle.std.specs.Prelude.{◌≡◌, Ok};
ghost use Rattle.table.specs.File.{model_file};
ghost use Rattle.table.specs.Worked.{coin, coin_bytes};

/// The file of a coin that is thrown by action 1 until it shows its other side: two states, of which 0 goes with weight 1
/// to itself and with weight 1 to state 1.
pub fn coin_file() -> [u8; 15]
    ensures answer { result ≡ coin_bytes }
    ensures model { model_file result ≡ Ok coin }
{
    [1, 0, 1, 2, 2, 0, 8, 0, 1, 0, 0, 1, 1, 0, 1]
}
