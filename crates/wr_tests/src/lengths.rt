// Internal: lengths of rows by the inputs. A function here asks its caller for what it does not test itself.
ghost use Rattle.std.specs.Prelude.{◌≡◌, ◌≤◌};
ghost use Rattle.pine.specs.Record.{stream_len_of};

use pine::PineParam;

// The bytes of the stream. The record has them too, but deriving it takes as long as a small test.
pub fn stream_len(param: PineParam) -> u64
    requires { (param.num_wr_tests ≤ 256) × (param.dimension ≤ 65536) }
    ensures { result ≡ stream_len_of param.num_wr_tests param.dimension }
{
    param.num_wr_tests * ((param.dimension + 3) / 4)
}
