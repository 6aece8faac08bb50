//! What size and cluster size an image may have.

ghost use Rattle.std.specs.Prelude.{◌≡◌};
ghost use Rattle.backup_file.specs.Layout.{is_form};

/// Whether a disk may have so many bytes, in clusters of 2 to the power `cluster_bits` bytes.
pub fn valid_form(size: u64, cluster_bits: u32) -> bool
    ensures { result ≡ is_form cluster_bits size }
{
    if cluster_bits < 9 || cluster_bits > 21 {
        return false;
    }
    if size == 0 || size > 1 << 40 || size % 512 != 0 {
        return false;
    }
    let cluster = 1 << cluster_bits;
    if size > (1 << 27) * cluster {
        return false;
    }
    let reach = cluster * (cluster / 8);
    (size + (reach - 1)) / reach <= 1 << 20
}
