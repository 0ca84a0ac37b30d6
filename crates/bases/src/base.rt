// Code and complement of every byte, from one table.
ghost use Rattle.std.specs.Prelude.{◌≡◌};
ghost use Rattle.bases.specs.Base.{code_of, complement_of, Table};

// The code of a byte that is no base.
pub(crate) const MARK: u64 = 4;

// For each byte its code times 256, plus its complement.
const BASES: [u16; 256] = [
    1024, 1025, 1026, 1027, 1028, 1029, 1030, 1031, 1032, 1033, 1034, 1035, 1036, 1037, 1038, 1039,
    1040, 1041, 1042, 1043, 1044, 1045, 1046, 1047, 1048, 1049, 1050, 1051, 1052, 1053, 1054, 1055,
    1056, 1057, 1058, 1059, 1060, 1061, 1062, 1063, 1064, 1065, 1066, 1067, 1068, 1069, 1070, 1071,
    1072, 1073, 1074, 1075, 1076, 1077, 1078, 1079, 1080, 1081, 1082, 1083, 1084, 1085, 1086, 1087,
    1088, 84, 1090, 327, 1092, 1093, 1094, 579, 1096, 1097, 1098, 1099, 1100, 1101, 1102, 1103,
    1104, 1105, 1106, 1107, 833, 1109, 1110, 1111, 1112, 1113, 1114, 1115, 1116, 1117, 1118, 1119,
    1120, 116, 1122, 359, 1124, 1125, 1126, 611, 1128, 1129, 1130, 1131, 1132, 1133, 1134, 1135,
    1136, 1137, 1138, 1139, 865, 1141, 1142, 1143, 1144, 1145, 1146, 1147, 1148, 1149, 1150, 1151,
    1152, 1153, 1154, 1155, 1156, 1157, 1158, 1159, 1160, 1161, 1162, 1163, 1164, 1165, 1166, 1167,
    1168, 1169, 1170, 1171, 1172, 1173, 1174, 1175, 1176, 1177, 1178, 1179, 1180, 1181, 1182, 1183,
    1184, 1185, 1186, 1187, 1188, 1189, 1190, 1191, 1192, 1193, 1194, 1195, 1196, 1197, 1198, 1199,
    1200, 1201, 1202, 1203, 1204, 1205, 1206, 1207, 1208, 1209, 1210, 1211, 1212, 1213, 1214, 1215,
    1216, 1217, 1218, 1219, 1220, 1221, 1222, 1223, 1224, 1225, 1226, 1227, 1228, 1229, 1230, 1231,
    1232, 1233, 1234, 1235, 1236, 1237, 1238, 1239, 1240, 1241, 1242, 1243, 1244, 1245, 1246, 1247,
    1248, 1249, 1250, 1251, 1252, 1253, 1254, 1255, 1256, 1257, 1258, 1259, 1260, 1261, 1262, 1263,
    1264, 1265, 1266, 1267, 1268, 1269, 1270, 1271, 1272, 1273, 1274, 1275, 1276, 1277, 1278, 1279,
];

// The table. A constant is copied wherever it is read, so a caller that reads many bytes takes it once.
pub fn table() -> [u16; 256]
    ensures { Table result }
{
    BASES
}

// The code of a base, by the table.
pub(crate) fn code_in(table: &[u16; 256], b: u8) -> u64
    requires { Table table.now }
    ensures { result ≡ code_of b }
{
    (table[b as usize] / 256) as u64
}

// The complement of a base, by the table.
pub(crate) fn complement_in(table: &[u16; 256], b: u8) -> u8
    requires { Table table.now }
    ensures { result ≡ complement_of b }
{
    (table[b as usize] % 256) as u8
}

// The code of a base: 0 to 3 for A, C, G, T in either case, and the mark for any other byte.
pub fn code(b: u8) -> u64
    ensures { result ≡ code_of b }
{
    let table = table();
    code_in(&table, b)
}

// The complement of a base in its case; any other byte is its own.
pub fn complement(b: u8) -> u8
    ensures { result ≡ complement_of b }
{
    let table = table();
    complement_in(&table, b)
}
