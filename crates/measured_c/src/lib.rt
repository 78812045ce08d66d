// What the benchmarks link with: the calls of `measured`, as functions of C's form.
#![tactic(auto)]

ghost use Rattle.std.specs.Prelude.{◌≡◌};
ghost use Rattle.aiger.specs.Read.{read_of};
ghost use Rattle.measured.specs.Walk.{reached_in, refused_in};

#[unsafe(no_mangle)]
pub extern "C" fn dilgrast_walk(file: &[u8], count: u32) -> u64
    ensures { result ≡ reached_in (read_of file.now 2048) count }
{
    measured::dilgrast_walk(file, count)
}

#[unsafe(no_mangle)]
pub extern "C" fn dilgrast_read(file: &[u8]) -> u32
    ensures { result ≡ refused_in (read_of file.now 2048) }
{
    measured::dilgrast_read(file)
}
