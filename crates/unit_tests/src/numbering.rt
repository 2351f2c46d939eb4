// Little-endian numbers, by the bytes of the kernel.
use sector::{put_u32, put_u64, u32_at, u64_at};

#[test]
fn reads_and_writes_the_kernel_s_header_numbers(rt: HostRuntime) {
    // The first sixteen bytes of a store with chunks of eight sectors, as the kernel writes them.
    let kernel = [0x53, 0x6e, 0x41, 0x70, 1, 0, 0, 0, 1, 0, 0, 0, 8, 0, 0, 0];
    let mut bytes = [0xee; 16];
    put_u32(&mut bytes, 0, 0x7041_6e53);
    put_u32(&mut bytes, 4, 1);
    put_u64(&mut bytes, 8, 0x0000_0008_0000_0001);
    assert!(rt; bytes == kernel);
    assert!(rt; u32_at(&kernel, 12) == 8 && u64_at(&kernel, 4) == 0x0000_0001_0000_0001);
}
