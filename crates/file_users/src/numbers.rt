// The two parts of a device's number, as Linux puts them together: 12 bits of the first and 8 of the second below, the others above.
ghost use Rattle.std.specs.Prelude.{◌≡◌};
ghost use Rattle.file_users.specs.Numbers.{major_of, minor_of};

/// Its driver.
pub fn major(device: u64) -> u64
    ensures { result ≡ major_of device }
{
    device / 256 % 4096 + device / 17_592_186_044_416 * 4096
}

/// Which of its driver's devices it is.
pub fn minor(device: u64) -> u64
    ensures { result ≡ minor_of device }
{
    device % 256 + device / 1_048_576 % 16_777_216 * 256
}
