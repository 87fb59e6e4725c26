//! Studies, and certificates of theirs.
use super::searches::BY_A_HAIR;
use super::*;

/// A study: a network with parts of it replaced, and its table of currents.
pub struct Study {
    pub network: &'static str,
    pub changes: &'static [(&'static str, &'static str)],
    pub currents: &'static str,
}

/// Dials of both relays from 0.050 to 1.000.
pub const LONG: &Study = &Study {
    network: WITH_DIALS,
    changes: &[],
    currents: CURRENTS,
};

/// R1 has dials up to 0.200, which is too short.
pub const SHORT: &Study = &Study {
    network: WITH_DIALS,
    changes: &[("dial_count = 20", "dial_count = 4")],
    currents: CURRENTS,
};

/// R1 has two plugs.
pub const PLUGS: &Study = &Study {
    network: WITH_DIALS,
    changes: &[("plug_count = 1", "plug_count = 2")],
    currents: CURRENTS,
};

/// Format 2, without limits of its own.
pub const OF_FORMAT_2: &Study = &Study {
    network: WITH_DIALS,
    changes: &[("format = 1", "format = 2")],
    currents: CURRENTS,
};

/// R1 waits 225 ms for R2, which dial 0.200 keeps.
pub const SOONER: &Study = &Study {
    network: WITH_DIALS,
    changes: &[
        ("format = 1", "format = 3"),
        (
            "[[fault]]",
            "[[interval]]\nbackup = \"R1\"\nprimary = \"R2\"\ncti_ms = 225\n[[fault]]",
        ),
    ],
    currents: CURRENTS,
};

/// Format 4, with the curve B of R1 by its constants.
pub const BY_CONSTANTS: &Study = &Study {
    network: WITH_DIALS,
    changes: &[
        ("format = 1", "format = 4"),
        (
            "\"iec-b\"",
            "\"custom\"\ncustom_k = 135000\ncustom_c = 0\ncustom_j = 1\ncustom_h = 1",
        ),
    ],
    currents: CURRENTS,
};

/// Kept exactly, but the enclosures do not show it.
pub const HAIR: &Study = &Study {
    network: NETWORK,
    changes: BY_A_HAIR,
    currents: "fault,relay,amps\nF1,R2,800\nF1,R1,800\n",
};

/// R1 at dial 0.250 and R2 at 0.050, whose cost is the plain bound of the one box.
pub const ONE_BOX: &str = "coord-certificate 1
ending closed
gap 1000
budget 20000
boxes 1
bound 262500
cost 262500
settings 0:4 0:0
B 1
end
";

/// The same, with what it tells of a study of format 4.
pub const CERT_4: &str = "coord-certificate 2
study 4 2 1
ending closed
gap 1000
budget 20000
boxes 1
bound 262500
cost 262500
settings 0:4 0:0
B 1
end
";

/// Plug 2.00 of R1 needs dial 0.150, which costs more.
pub const THREE_BOXES: &str = "coord-certificate 1
ending closed
gap 1000
budget 20000
boxes 3
bound 262500
cost 262500
settings 0:4 0:0
S 0 0
B 1
B 1
end
";

pub const EMPTY: &str = "coord-certificate 1
ending no-settings
gap 1000
budget 20000
boxes 1
bound none
cost none
settings none
E
end
";

/// R1 at dial 0.200: 150 ms at F2, and 75 ms of R2 at F1.
pub const CERT_3: &str = "coord-certificate 2
study 3 2 1
ending closed
gap 1000
budget 20000
boxes 1
bound 225000
cost 225000
settings 0:3 0:0
B 1
end
";

/// R2 at dial 0.140 takes 270 ms at 8 times pickup, less a part of a nanosecond.
pub const ONE_HAIR: &str = "coord-certificate 1
ending hairline
gap 1000
budget 20000
boxes 1
bound 269999
cost none
settings none
H 0
end
";

/// A hairline that no leaf is, at a gap below the least.
pub const NO_HAIR: &str = "coord-certificate 1
ending hairline
gap 1
budget 20000
boxes 1
bound 269999
cost none
settings none
B 1
end
";
