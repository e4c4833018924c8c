// What two sets of relations compose to: a row for each set x, and in it an entry for each set y.
use relations::SETS;

pub(crate) const ENTRIES: [&[u8; SETS]; SETS] = [
    &[
        0, // nothing with nothing
        0, // nothing with E
        0, // nothing with A
        0, // nothing with EA
        0, // nothing with B
        0, // nothing with EB
        0, // nothing with AB
        0, // nothing with EAB
        0, // nothing with S
        0, // nothing with ES
        0, // nothing with AS
        0, // nothing with EAS
        0, // nothing with BS
        0, // nothing with EBS
        0, // nothing with ABS
        0, // nothing with EABS
    ],
    &[
        0, // E with nothing
        1, // E with E
        2, // E with A
        3, // E with EA
        4, // E with B
        5, // E with EB
        6, // E with AB
        7, // E with EAB
        8, // E with S
        9, // E with ES
        10, // E with AS
        11, // E with EAS
        12, // E with BS
        13, // E with EBS
        14, // E with ABS
        15, // E with EABS
    ],
    &[
        0, // A with nothing
        2, // A with E
        2, // A with A
        2, // A with EA
        7, // A with B
        7, // A with EB
        7, // A with AB
        7, // A with EAB
        10, // A with S
        10, // A with ES
        10, // A with AS
        10, // A with EAS
        15, // A with BS
        15, // A with EBS
        15, // A with ABS
        15, // A with EABS
    ],
    &[
        0, // EA with nothing
        3, // EA with E
        2, // EA with A
        3, // EA with EA
        7, // EA with B
        7, // EA with EB
        7, // EA with AB
        7, // EA with EAB
        10, // EA with S
        11, // EA with ES
        10, // EA with AS
        11, // EA with EAS
        15, // EA with BS
        15, // EA with EBS
        15, // EA with ABS
        15, // EA with EABS
    ],
    &[
        0, // B with nothing
        4, // B with E
        15, // B with A
        15, // B with EA
        4, // B with B
        4, // B with EB
        15, // B with AB
        15, // B with EAB
        8, // B with S
        12, // B with ES
        15, // B with AS
        15, // B with EAS
        12, // B with BS
        12, // B with EBS
        15, // B with ABS
        15, // B with EABS
    ],
    &[
        0, // EB with nothing
        5, // EB with E
        15, // EB with A
        15, // EB with EA
        4, // EB with B
        5, // EB with EB
        15, // EB with AB
        15, // EB with EAB
        8, // EB with S
        13, // EB with ES
        15, // EB with AS
        15, // EB with EAS
        12, // EB with BS
        13, // EB with EBS
        15, // EB with ABS
        15, // EB with EABS
    ],
    &[
        0, // AB with nothing
        6, // AB with E
        15, // AB with A
        15, // AB with EA
        7, // AB with B
        7, // AB with EB
        15, // AB with AB
        15, // AB with EAB
        10, // AB with S
        14, // AB with ES
        15, // AB with AS
        15, // AB with EAS
        15, // AB with BS
        15, // AB with EBS
        15, // AB with ABS
        15, // AB with EABS
    ],
    &[
        0, // EAB with nothing
        7, // EAB with E
        15, // EAB with A
        15, // EAB with EA
        7, // EAB with B
        7, // EAB with EB
        15, // EAB with AB
        15, // EAB with EAB
        10, // EAB with S
        15, // EAB with ES
        15, // EAB with AS
        15, // EAB with EAS
        15, // EAB with BS
        15, // EAB with EBS
        15, // EAB with ABS
        15, // EAB with EABS
    ],
    &[
        0, // S with nothing
        8, // S with E
        8, // S with A
        8, // S with EA
        12, // S with B
        12, // S with EB
        12, // S with AB
        12, // S with EAB
        15, // S with S
        15, // S with ES
        15, // S with AS
        15, // S with EAS
        15, // S with BS
        15, // S with EBS
        15, // S with ABS
        15, // S with EABS
    ],
    &[
        0, // ES with nothing
        9, // ES with E
        10, // ES with A
        11, // ES with EA
        12, // ES with B
        13, // ES with EB
        14, // ES with AB
        15, // ES with EAB
        15, // ES with S
        15, // ES with ES
        15, // ES with AS
        15, // ES with EAS
        15, // ES with BS
        15, // ES with EBS
        15, // ES with ABS
        15, // ES with EABS
    ],
    &[
        0, // AS with nothing
        10, // AS with E
        10, // AS with A
        10, // AS with EA
        15, // AS with B
        15, // AS with EB
        15, // AS with AB
        15, // AS with EAB
        15, // AS with S
        15, // AS with ES
        15, // AS with AS
        15, // AS with EAS
        15, // AS with BS
        15, // AS with EBS
        15, // AS with ABS
        15, // AS with EABS
    ],
    &[
        0, // EAS with nothing
        11, // EAS with E
        10, // EAS with A
        11, // EAS with EA
        15, // EAS with B
        15, // EAS with EB
        15, // EAS with AB
        15, // EAS with EAB
        15, // EAS with S
        15, // EAS with ES
        15, // EAS with AS
        15, // EAS with EAS
        15, // EAS with BS
        15, // EAS with EBS
        15, // EAS with ABS
        15, // EAS with EABS
    ],
    &[
        0, // BS with nothing
        12, // BS with E
        15, // BS with A
        15, // BS with EA
        12, // BS with B
        12, // BS with EB
        15, // BS with AB
        15, // BS with EAB
        15, // BS with S
        15, // BS with ES
        15, // BS with AS
        15, // BS with EAS
        15, // BS with BS
        15, // BS with EBS
        15, // BS with ABS
        15, // BS with EABS
    ],
    &[
        0, // EBS with nothing
        13, // EBS with E
        15, // EBS with A
        15, // EBS with EA
        12, // EBS with B
        13, // EBS with EB
        15, // EBS with AB
        15, // EBS with EAB
        15, // EBS with S
        15, // EBS with ES
        15, // EBS with AS
        15, // EBS with EAS
        15, // EBS with BS
        15, // EBS with EBS
        15, // EBS with ABS
        15, // EBS with EABS
    ],
    &[
        0, // ABS with nothing
        14, // ABS with E
        15, // ABS with A
        15, // ABS with EA
        15, // ABS with B
        15, // ABS with EB
        15, // ABS with AB
        15, // ABS with EAB
        15, // ABS with S
        15, // ABS with ES
        15, // ABS with AS
        15, // ABS with EAS
        15, // ABS with BS
        15, // ABS with EBS
        15, // ABS with ABS
        15, // ABS with EABS
    ],
    &[
        0, // EABS with nothing
        15, // EABS with E
        15, // EABS with A
        15, // EABS with EA
        15, // EABS with B
        15, // EABS with EB
        15, // EABS with AB
        15, // EABS with EAB
        15, // EABS with S
        15, // EABS with ES
        15, // EABS with AS
        15, // EABS with EAS
        15, // EABS with BS
        15, // EABS with EBS
        15, // EABS with ABS
        15, // EABS with EABS
    ],
];
