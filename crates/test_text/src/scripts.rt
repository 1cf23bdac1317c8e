//! Scripts that several tests run, each with its report.

/// An array enters, its cells are doubled on the device, it leaves, and is printed.
pub const DOUBLED: &[u8] =
    b"long a[4] = {1,2,3,4};\nhost {\n#pragma acc enter data copyin(a)\n#pragma acc parallel loop present(a)\nfor (i = 0; i < 4; i++) a[i] = a[i] * 2;\n#pragma acc exit data copyout(a)\nprint(a);\n}\n";

pub const DOUBLED_REPORT: &[u8] =
    b"host 0\n2 4 6 8\ndone\nqueue 0 sync batches 3 operations 5 of 5\nend\n";

/// Two hosts enter an array each, on queues of their own.
pub const TWO_HOSTS: &[u8] =
    b"long a[2];\nlong b[2];\nhost {\n#pragma acc enter data copyin(a) async(1)\n}\nhost {\n#pragma acc enter data copyin(b) async(2)\n}\n";

pub const TWO_HOSTS_REPORT: &[u8] =
    b"host 0\ndone\nhost 1\ndone\npresent 0 a[0:2] s 0 d 1\npresent 0 b[0:2] s 0 d 1\nqueue 0 1 batches 1 operations 2 of 2\nqueue 0 2 batches 1 operations 2 of 2\nend\n";

/// A schedule of enough turns for each of them.
pub const TWENTY_ROUNDS: &[u8] = b"round 20\n";
