// The scripts of the tables.
use crate::disk::{Lacking, Taking};

/// A relation of points, indexed. The last insert has the pages of the index written.
pub const POINTS: &str =
    "create p (at point)\nload p \"points.csv\"\nindex p.at\ninsert p (1048575 1048575)\n";

/// A relation of points with numbers, both indexed, and another one of four points.
const NUMBERED: &str = "create p (at point, pop int)\n\
    load p \"points.csv\"\n\
    index p.at\n\
    index p.pop\n\
    create q (at point)\n\
    insert q (1000 1000)\n\
    insert q (20000 50000)\n\
    insert q (40000 30000)\n\
    insert q (60000 10000)\n\
    index q.at\n\
    insert p (1048575 1048575), 1\n";

/// A relation of points with numbers, whose points have an R-tree and no quadtree.
const TREED: &str = "create p (at point, pop int)\n\
    load p \"points.csv\"\n\
    rtree p.at\n\
    index p.pop\n\
    insert p (1048575 1048575), 1\n";

/// 41 rows of a ranking.
pub static RANKING: Taking = Taking {
    made: POINTS,
    before: "open c = rank p.at from (30000 30000)\n",
    struck: "next c 1\nnext c 1\nnext c 1\nnext c 1\nnext c 1\nnext c 1\nnext c 1\nnext c 1\n\
        next c 1\nnext c 1\nnext c 1\nnext c 1\nnext c 1\nnext c 1\nnext c 1\nnext c 1\n\
        next c 1\nnext c 1\nnext c 1\nnext c 1\nnext c 1\nnext c 1\nnext c 1\nnext c 1\n\
        next c 1\nnext c 1\nnext c 1\nnext c 1\nnext c 1\nnext c 1\nnext c 1\nnext c 1\n\
        next c 1\nnext c 1\nnext c 1\nnext c 1\nnext c 1\nnext c 1\nnext c 1\nnext c 1\n\
        next c 1\n",
    after: "",
    lacking: Lacking::LastRow,
};

/// Three rows.
const THREE: &str = "next c 1\nnext c 1\nnext c 1\n";

/// Three rows of other plans. The `show` before them puts other pages into the pool. A semi-join and a sort read most pages
/// for their first row.
pub static PLANS: [(&str, Taking); 5] = [
    (
        "calls of the disk that fail in three rows of a filter",
        Taking {
            made: NUMBERED,
            before: "open c = filter (rank p.at from (30000 30000)) where 1.pop >= 60000\nnext c 5\n\
                show 1 sort (scan p) by 1.pop\n",
            struck: THREE,
            after: "next c 5\n",
            lacking: Lacking::LastRow,
        },
    ),
    (
        "calls of the disk that fail in three rows of a match",
        Taking {
            made: NUMBERED,
            before: "open c = match (rank p.at from (30000 30000)) 1.pop = p.pop\nnext c 5\n\
                show 1 sort (scan p) by 1.pop\n",
            struck: THREE,
            after: "next c 5\n",
            lacking: Lacking::LastRow,
        },
    ),
    (
        "calls of the disk that fail in three rows of a semi-join",
        Taking {
            made: NUMBERED,
            before: "open c = semi p.at q.at\nshow 1 sort (scan p) by 1.pop\n",
            struck: THREE,
            after: "next c 5\n",
            lacking: Lacking::LastRow,
        },
    ),
    (
        "calls of the disk that fail in three rows by an R-tree",
        Taking {
            made: TREED,
            before: "open c = near p.at from (30000 30000)\nshow 1 sort (scan p) by 1.pop\n\
                show 1 sort (match (scan p) 1.pop = p.pop) by 1.pop\n",
            struck: THREE,
            after: "next c 5\n",
            lacking: Lacking::LastRow,
        },
    ),
    (
        "calls of the disk that fail in three rows of a sort",
        Taking {
            made: NUMBERED,
            before: "open c = sort (scan p) by 1.pop\n",
            struck: THREE,
            after: "next c 5\n",
            lacking: Lacking::LastRow,
        },
    ),
];

/// Three cursors, each opened between changes.
const BETWEEN_CHANGES: &str =
    "open c = filter (rank p.at from (30000 30000)) where 1.pop >= 60000\n\
    next c 5\n\
    delete p 11\n\
    insert p (30000 30001), 7\n\
    open d = sort (scan p) by 1.pop\n\
    delete p 12\n\
    insert p (30001 30000), 8\n\
    open e = pick p.pop from 0 to 9000\n\
    delete p 13\n\
    next d 2\n\
    next e 2\n\
    show 1 sort (scan p) by 1.pop\n";

/// More rows of each.
const ALL_THREE: &str = "next d 4\nnext e 4\nnext c 5\n";

/// Rows of the one that was opened first, and changes beside all of them.
pub static BESIDE_CHANGES: [(&str, Taking); 3] = [
    (
        "calls of the disk that fail in three rows of a cursor beside changes",
        Taking {
            made: NUMBERED,
            before: BETWEEN_CHANGES,
            struck: THREE,
            after: "next c 5\n",
            lacking: Lacking::LastRow,
        },
    ),
    (
        "calls of the disk that fail in three changes beside cursors",
        Taking {
            made: NUMBERED,
            before: BETWEEN_CHANGES,
            struck: "delete p 14\ndelete p 600\ndelete p 1200\n",
            after: ALL_THREE,
            lacking: Lacking::Change,
        },
    ),
    (
        "calls of the disk that fail in three changes of an R-tree",
        Taking {
            made: TREED,
            before: "open c = near p.at from (30000 30000)\nnext c 5\n\
                show 1 sort (scan p) by 1.pop\n",
            struck: "delete p 14\ninsert p (30000 30001), 7\ndelete p 600\n",
            after: "next c 5\n",
            lacking: Lacking::Change,
        },
    ),
];

/// Three cursors whose rows are taken in turns.
pub const TURNS: &str = "create city (at point, name text, pop int)\n\
    load city \"cities.csv\" header\n\
    index city.at\n\
    create road (way segment)\n\
    insert road (0 0)-(3000 0)\n\
    insert road (1000 2000)-(1000 5000)\n\
    index road.way\n\
    create region (area polygon, name text)\n\
    insert region ((0 0) (2000 0) (2000 2000) (0 2000)), \"West\"\n\
    insert region ((2500 3500) (4000 3500) (4000 5000)), \"North\"\n\
    index region.area\n\
    open a = fetch (filter (rank city.at from (1100 1000)) where 1.pop > 5000000) 1.name\n\
    open b = semi city.at road.way\n\
    open c = fetch (rank region.area from (1000 1000)) 1.name\n\
    next a 1\n\
    next b 2\n\
    next c 1\n\
    next a 1\n\
    next b 3\n\
    next c 2\n\
    stats a\n\
    stats c\n";

/// The data file of that script.
pub const CITIES: &str = "at,name,pop\n\
    (1000 1000),Alba,6000000\n\
    (1200 1100),Brin,400000\n\
    (3000 4000),Cork,9000000\n\
    (60000 60000),Dorn,5500000\n";

/// What that script prints.
pub const TURNS_TEXT: &str =
    "ok\nloaded 4\nok\nok\nid 1\nid 2\nok\nok\nid 1\nid 2\nok\nok\nok\nok\n\
    10000\t1\tAlba\n850000\t2\t2\n1000000\t1\t1\n0\t1\tWest\n12610000\t3\tCork\n4000000\t3\t2\n6506000000\t4\t2\nend\n\
    8500000\t2\tNorth\nend\n\
    blocks 1 pairs 0 geometries 0 rows 2\nblocks 1 pairs 0 geometries 2 rows 2\n";

/// Loads the cities alone, and inserts one more.
pub const LOADING: &str = "create city (at point, name text, pop int)\n\
    load city \"cities.csv\" header\n\
    insert city (1 1), \"Esk\", 7\n";

/// What it prints.
pub const LOADING_TEXT: &str = "ok\nloaded 4\nid 5\n";

/// What it prints where the data file fails.
pub const UNLOADED_TEXT: &str = "ok\nrefused 4 File\nid 1\n";
